// Tests of policy texts, by a table: how many of how many pass.
#![tactic(auto)]

mod table;

use anyhow::anyhow;
use roll::roll::Roll;
use table::{TABLE, is_told};

fn main(rt: HostRuntime) -> anyhow::Result<()> {
    let names = b"anna bruno lot7 page7 abcdefghijklmnop";
    let Ok(roll) = Roll::read(names, b"grew buys covers", b"tasted") else {
        return Err(anyhow!("no roll"));
    };
    for (part, rows) in TABLE.chunks(10).enumerate() {
        let told = rows.iter().filter(|row| is_told(&roll, row)).count();
        println!(rt; "part {part}: {told} of {}", rows.len())?;
    }
    Ok(())
}
