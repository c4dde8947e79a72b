// Tests of rolls and books, by tables: how many of how many pass.
#![tactic(auto)]

mod books;
mod rolls;

use books::LIMITS;
use rolls::{FAULTY, ROLLS};

fn main(rt: HostRuntime) -> anyhow::Result<()> {
    let heap = rt.alloc();
    println!(rt;
        "rolls that are read: {} of {}",
        rolls::good_rolls(),
        ROLLS.len()
    )?;
    println!(rt;
        "rolls that are refused: {} of {}",
        rolls::faulty_rolls(),
        FAULTY.len()
    )?;
    println!(rt; "checks of counts: {} of {}", books::limits(), LIMITS.len())?;
    println!(rt; "makings and fillings: {} of 10", books::fillings(heap)?)?;
    println!(rt;
        "calls answered alike by both makes: {} of 3000",
        books::same_answers(heap)?
    )?;
    Ok(())
}
