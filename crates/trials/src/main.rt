//! Outside vectors and worked cases, run and compared.

#![tactic(auto)]

mod digests;
mod formats;

use score::Report;

fn main(rt: HostRuntime) -> anyhow::Result<()> {
    let mut report = Report::new(&rt);
    digests::try_digests(&mut report)?;
    formats::try_formats(&mut report)?;
    let score = report.into_score();
    println!(rt; "{score}")?;
    score.verdict()?;
    Ok(())
}
