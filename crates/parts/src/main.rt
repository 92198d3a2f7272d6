// Reads one part list from standard input and writes the sketch file of its table at N = 512, or one line with the refusal's number. A read
// or a write that fails is told in one line on standard error.
#![tactic(auto)]

fn main(rt: HostRuntime) {
    // One byte more than the longest text, so that a longer one is seen to be too long.
    let mut text = [0u8; listing::LONGEST_TEXT + 1];
    let mut target = [0u8; sketch::LONGEST];
    stdio::run(
        rt,
        "parts",
        &mut text,
        |text| listing::listed(text, &mut target),
    );
}
