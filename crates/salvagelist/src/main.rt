// Lists what can be salvaged of standard input, what is refused of it, and the tail: document 01, "Salvage reading".
#![tactic(auto)]

fn main(rt: HostRuntime) {
    let mut input = rt.stdin();
    show::show(&rt, &mut input, dss_frame::Rules::Salvage);
}
