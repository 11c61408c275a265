//! Prints, for a lot of a level and a wanted role, which badges may open an access: a row for each badge level and a
//! column for each badge role, `.` for pass or the number of the rule that fails (1: the level, 2: the role).
#![tactic(auto)]

use anyhow::bail;
use grid::profile::text_for;
use std::env;

fn main(rt: HostRuntime) -> anyhow::Result<()> {
    // the first word is the program's own name
    let words: Vec<String> = env::args(&rt)?.skip(1).collect(rt.alloc())?;
    let text = match text_for(rt.alloc(), &words) {
        Ok(text) => text,
        // not by `?`: standard error gets two lines, the fault under the program's name and then what `main` returns
        Err(fault) => {
            eprintln!(rt; "profile: {fault}")?;
            bail!("no grid");
        }
    };
    print!(rt; "{text}")?;
    Ok(())
}
