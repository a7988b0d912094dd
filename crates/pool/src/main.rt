// The text program: standard input to standard output.
#![tactic(auto)]

fn main(rt: HostRuntime) {
    text_session::run(&mut rt.stdin(), &mut rt.stdout(), 65536);
}
