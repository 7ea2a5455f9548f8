// Lists the frames of standard input: document 01, the last part of "Both sides of each edge".
#![tactic(auto)]

fn main(rt: HostRuntime) {
    let mut input = rt.stdin();
    show::show(&rt, &mut input, dss_frame::Rules::Reader);
}
