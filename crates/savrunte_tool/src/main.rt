// Savrunte's program: runs the jobs of files, or all spreads of a file in one call, says how they ended, for a person or for a machine, and tells the status to a descriptor (docs/FORMATS.md).
#![tactic(auto)]

mod call; // call.rt: a whole call: its arguments, its files and its status

// Looks at all arguments before anything runs, so that nothing runs where one is at fault.
fn main(rt: HostRuntime) {
    let n = call::arg_count(&rt);
    let asked = call::all_asked(&rt, rt.stderr(), n);
    if call::is_fine(rt.stderr(), asked) {
        call::run(&rt, rt.stdout(), rt.stderr(), asked, n);
    }
}
