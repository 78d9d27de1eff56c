// girvoupa: the commands, over the runtime that main is given.
#![tactic(auto)]

fn main(rt: HostRuntime) -> anyhow::Result<()> {
    commands::run(&rt)
}
