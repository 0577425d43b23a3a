// The commissioning sheet: twelve setpoints from standard input are checked, and the zone clock is stepped.
#![tactic(auto)]

mod clock;
mod columns;
mod day_ahead;
mod fault;
mod roles;
mod rows;
mod texts;
mod typed;

use anyhow::{anyhow, bail};
use calendar::{Month, Stamp};
use fault::SheetFault;
use figures::figures_that_hold;
use market::{DayAheadTable, PriceList};
use pricing::StandardChoice;
use roles::PricedSite;
use rows::{AskedRow, RefusalRow, SetpointRow, laid_out, message};
use site::{Setpoint, Setpoints};
use std::fmt::Display;
use std::io;
use std::ops::Range;
use std::process::ExitCode;
use tariffs::PriceSource;
use typed::Typed;

// What a fault ends the program with: its message, or that there is no memory for it.
fn failure<M: Display + Drop>(rt: &HostRuntime, fault: M) -> anyhow::Error {
    message(rt.alloc(), fault).unwrap_or_else(anyhow::Error::from)
}

// The twelve numbers of standard input, or the line that stops them.
fn typed_in(rt: &HostRuntime) -> anyhow::Result<[u32; 12]> {
    let mut typed = Typed::none();
    // the message of too few numbers names the last line that was read
    let mut last = 0;
    for (line, text) in (1u64..).zip(rt.lines(rt.alloc())) {
        let text = text.map_err(|error| anyhow!("line {line}: {error}"))?;
        typed = typed.read_line(text.as_bytes()).map_err(|fault| failure(
            rt,
            SheetFault::Unreadable { line, fault },
        ))?;
        last = line;
    }
    let few = SheetFault::TooFew {
        line: last,
        count: typed.count(),
    };
    typed.twelve().ok_or_else(|| failure(rt, few))
}

// A row's line, or none of it.
fn show_row<R: Display + Drop>(rt: &HostRuntime, row: R) -> io::Result<()> {
    rt.println(laid_out(rt.alloc(), row)?)
}

// The twelve setpoints with their numbers, and the verdict on them.
fn show_setpoints<V: Display + Drop>(
    rt: &HostRuntime,
    numbers: [u32; 12],
    verdict: V,
) -> io::Result<()> {
    println!(rt; "Setpoints")?;
    for (setpoint, value) in Setpoint::all().into_iter().zip(numbers) {
        show_row(rt, SetpointRow { setpoint, value })?;
    }
    show_row(rt, verdict)
}

// A row for each hour of a month whose index lies in a range.
fn show_hours<R: Display + Drop, F: Fn(Stamp) -> R>(
    rt: &HostRuntime,
    month: Month,
    indices: Range<usize>,
    row: F,
) -> io::Result<()>
    requires { F.IsAlwaysCallable row }
{
    for at in indices.filter_map(|index| month.stamp_at(index)) {
        show_row(rt, row(at))?;
    }
    Ok(())
}

// The zone clock over 07:00 and over 23:00, from the first day of the first month on.
fn show_zone_clock(rt: &HostRuntime, setpoints: &Setpoints) -> io::Result<()> {
    let month = setpoints.first_month;
    let tariff = StandardChoice::new(setpoints, DayAheadTable::empty()).purchase;
    println!(rt; "Zone clock, purchase tariff")?;
    println!(rt; "  hour    coefficient  kopiykas per kWh       points")?;
    show_hours(rt, month, 6..9, |at| clock::hour_row(tariff, at))?;
    println!(rt)?;
    show_hours(rt, month, 22..25, |at| clock::hour_row(tariff, at))
}

// A month next to another: the one after it, or the one before the last.
fn neighbour(month: Month) -> Month {
    month.next().unwrap_or(Month {
        year: 2099,
        month: 11,
    })
}

// Three hours without a price: outside the table's month, at a missing price, and the same through a lower-of.
fn show_faults(rt: &HostRuntime, site: PricedSite) -> io::Result<()> {
    let mut table = site.table;
    let mut choice = StandardChoice::new(&site.setpoints, table);
    if let Some(at) = neighbour(site.setpoints.first_month).stamp_at(0) {
        show_row(
            rt,
            AskedRow {
                what: "outside the table's month",
                at,
                answer: table.price(at),
            },
        )?;
    }
    if let Some(at) = site.setpoints.first_month.stamp_at(12) {
        show_row(
            rt,
            AskedRow {
                what: "a missing price",
                at,
                answer: table.price(at),
            },
        )?;
        show_row(
            rt,
            AskedRow {
                what: "the same, through a lower-of",
                at,
                answer: choice.excess.price(at),
            },
        )?;
    }
    Ok(())
}

// The standard choice of sources, on the bench's day-ahead list for the first month.
fn show_prices(rt: &HostRuntime, setpoints: &Setpoints) -> anyhow::Result<()> {
    let month = setpoints.first_month;
    let prices = day_ahead::held(rt.alloc(), month, &day_ahead::DAY)?;
    let list = PriceList {
        year: month.year,
        month: month.month,
        prices: prices.as_slice(),
    };
    let table = list
        .check()
        .map_err(|fault| failure(rt, format_args!("the day-ahead list is refused: {fault}")))?
        .table();
    let site = PricedSite {
        setpoints: *setpoints,
        table,
    };
    println!(rt; "Prices by role, kopiykas per kWh")?;
    println!(rt; "  hour      purchase  sale rule 1  sale rule 2  sale rule 3       excess")?;
    show_hours(rt, month, 6..9, |at| site.priced(at))?;
    println!(rt)?;
    show_hours(rt, month, 22..25, |at| site.priced(at))?;
    println!(rt)?;
    println!(rt; "No price")?;
    show_faults(rt, site)?;
    Ok(())
}

// The figures of the bench are proved, so that none of them can fail here.
fn show_figures(rt: &HostRuntime) -> io::Result<()> {
    let count = figures_that_hold();
    println!(rt; "Bench figures: {count} hold, by proof")
}

fn run(rt: &HostRuntime) -> anyhow::Result<()> {
    let numbers = typed_in(rt)?;
    println!(rt; "Commissioning sheet")?;
    println!(rt)?;
    let setpoints = match Setpoints::check(numbers) {
        Ok(setpoints) => setpoints,
        Err(fault) => {
            show_setpoints(rt, numbers, RefusalRow(fault))?;
            bail!("the setpoints are refused");
        }
    };
    // the numbers as they are held
    let held = Setpoint::all().map(|setpoint| setpoints.value(setpoint));
    show_setpoints(rt, held, "accepted")?;
    println!(rt)?;
    show_zone_clock(rt, &setpoints)?;
    println!(rt)?;
    show_figures(rt)?;
    Ok(())
}

fn main(rt: HostRuntime) -> io::Result<ExitCode> {
    if let Err(error) = run(&rt) {
        eprintln!(rt; "bench_sheet: {error}")?;
        return Ok(ExitCode::FAILURE);
    }
    Ok(ExitCode::SUCCESS)
}

#[cfg(test)]
mod tests;
