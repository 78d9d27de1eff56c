// The command girvoupa sets, as the gate runs it: once for each program, with its one list of arguments, so each command that is tried has a main of its own.
#![tactic(auto)]

fn main(rt: HostRuntime) -> anyhow::Result<()> {
    commands::run(&rt)
}
