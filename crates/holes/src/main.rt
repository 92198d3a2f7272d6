// Reads one sketch file from standard input and prints what is said of it: seven lines, or one line with the refusal's number. A read or a
// write that fails is told in one line on standard error.
#![tactic(auto)]

fn main(rt: HostRuntime) {
    // One byte more than the longest file, so that a longer one is seen to be too long.
    let mut file = [0u8; sketch::LONGEST + 1];
    stdio::run(rt, "holes", &mut file, report::report);
}
