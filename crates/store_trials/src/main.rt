//! Stores over damaged bytes, run and compared.

#![tactic(auto)]

mod damaged;

use score::Report;

fn main(rt: HostRuntime) -> anyhow::Result<()> {
    let mut report = Report::new(&rt);
    damaged::try_damaged_stores(&mut report)?;
    let score = report.into_score();
    println!(rt; "{score}")?;
    score.verdict()?;
    Ok(())
}
