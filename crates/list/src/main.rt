// The listing program: prints the listing of the plan in plan.bin for the task in task.bin, both in the folder it is run in.
#![tactic(auto)]

use std::io;

fn main(rt: HostRuntime) -> io::Result<()> {
    listing_program::list_files(&rt, b"task.bin", b"plan.bin")
}
