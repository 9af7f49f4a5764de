// Deviations: the figures of document 01, and what N changes for a generator and an import.
ghost use Rattle.rules.specs.Inner.Kept.{EntryKept};
ghost use Rattle.formula.specs.Meant.{meant};

use formula::deviation::deviation;
use formula::entry::Entry;
use rules::Kind;
use std::io::Write;
use streams::{Trouble, print, print_signed};

// A letter and its number; a number that is 0 is left out, as document 01 does.
fn print_letter<W: Write>(output: &mut W, letter: u8, number: i64) -> Result<(), Trouble> {
    if number != 0 {
        print(output, &[b' ', letter, b' '])?;
        print_signed(output, number)?;
    }
    Ok(())
}

// A record's numbers, in the order of the hour file.
fn print_entry<W: Write>(output: &mut W, r: Entry) -> Result<(), Trouble> {
    print_letter(output, b'S', r.s)?;
    print_letter(output, b'A', r.a)?;
    print_letter(output, b'J', r.j)?;
    print_letter(output, b'N', r.n)?;
    print_letter(output, b'O', r.o)?;
    print_letter(output, b'M', r.m)?;
    print_letter(output, b'F', r.f)?;
    print_letter(output, b'H', r.h)
}

fn show_entry<W: Write>(output: &mut W, r: Entry) -> Result<(), Trouble>
    requires { EntryKept (meant r) }
{
    print_entry(output, r)?;
    print(output, b": ")?;
    print_signed(output, deviation(r))?;
    print(output, b"\n")
}

// How much N adds to a deviation.
fn added(r: Entry) -> i64
    requires { EntryKept (meant r) }
{
    let mut without = r;
    without.n = 0;
    deviation(r) - deviation(without)
}

fn print_added<W: Write>(output: &mut W, n: i64, more: i64) -> Result<(), Trouble> {
    print(output, b"N ")?;
    print_signed(output, n)?;
    print(output, b" adds ")?;
    print_signed(output, more)?;
    print(output, b"\n")
}

// A record without N and with it, and how much N adds.
fn show_entry_ancillary<W: Write>(output: &mut W, r: Entry) -> Result<(), Trouble>
    requires { EntryKept (meant r) }
{
    let mut without = r;
    without.n = 0;
    show_entry(output, without)?;
    show_entry(output, r)?;
    print_added(output, r.n, added(r))
}

fn show<W: Write>(
    output: &mut W,
    kind: Kind,
    s: i64,
    a: i64,
    j: i64,
    n: i64,
    o: i64,
    m: i64,
    f: i64,
    h: i64,
) -> Result<(), Trouble>
    requires { EntryKept (record { kind = kind; S = s; A = a; J = j; N = n; O = o; M = m; F = f; H = h }) }
{
    show_entry(
        output,
        Entry {
            kind: kind,
            s: s,
            a: a,
            j: j,
            n: n,
            o: o,
            m: m,
            f: f,
            h: h,
        },
    )
}

fn show_ancillary<W: Write>(
    output: &mut W,
    kind: Kind,
    s: i64,
    a: i64,
    j: i64,
    n: i64,
    o: i64,
    m: i64,
    f: i64,
    h: i64,
) -> Result<(), Trouble>
    requires { EntryKept (record { kind = kind; S = s; A = a; J = j; N = n; O = o; M = m; F = f; H = h }) }
{
    show_entry_ancillary(
        output,
        Entry {
            kind: kind,
            s: s,
            a: a,
            j: j,
            n: n,
            o: o,
            m: m,
            f: f,
            h: h,
        },
    )
}

// N 30 adds 10,000×N, not H×N, and J doesn't change that. Where O is 600, N also makes less of it unavailable, until nothing is.
// S, A, J, N, O, M, F, H
fn show_generators_with_losses<W: Write>(output: &mut W) -> Result<(), Trouble> {
    show_ancillary(
        output,
        Kind::Generator,
        1000,
        900,
        0,
        30,
        0,
        2000,
        9800,
        9800,
    )?;
    show_ancillary(
        output,
        Kind::Generator,
        1000,
        900,
        50,
        30,
        0,
        2000,
        9800,
        9800,
    )?;
    show(
        output,
        Kind::Generator,
        1000,
        1100,
        0,
        0,
        0,
        2000,
        9800,
        9800,
    )
}

fn show_generators_with_obligations<W: Write>(output: &mut W) -> Result<(), Trouble> {
    show(
        output,
        Kind::Generator,
        1000,
        1000,
        0,
        0,
        500,
        1500,
        10000,
        10000,
    )?;
    show_ancillary(
        output,
        Kind::Generator,
        1000,
        1000,
        0,
        40,
        600,
        1500,
        10000,
        10000,
    )?;
    show_ancillary(
        output,
        Kind::Generator,
        1000,
        1000,
        0,
        150,
        600,
        1500,
        10000,
        10000,
    )
}

pub fn show_generators<W: Write>(output: &mut W) -> Result<(), Trouble> {
    print(output, b"generators\n")?;
    show_generators_with_losses(output)?;
    show_generators_with_obligations(output)
}

// O 400 is below A: nothing is unavailable.
pub fn show_loads<W: Write>(output: &mut W) -> Result<(), Trouble> {
    print(output, b"loads\n")?;
    show(output, Kind::RealTimeLoad, 500, 450, 0, 0, 0, 0, 0, 0)?;
    show(output, Kind::RealTimeLoad, 500, 450, 0, 30, 500, 0, 0, 0)?;
    show(output, Kind::RealTimeLoad, 500, 450, 0, 30, 0, 0, 0, 0)?;
    show(output, Kind::RealTimeLoad, 500, 450, 0, 0, 500, 0, 0, 0)?;
    show(output, Kind::RealTimeLoad, 500, 450, 0, 0, 400, 0, 0, 0)
}

pub fn show_profile_loads<W: Write>(output: &mut W) -> Result<(), Trouble> {
    print(output, b"profile loads\n")?;
    show(output, Kind::ProfileLoad, 500, 450, -20, 0, 0, 0, 0, 0)
}

// N 20 adds 10,000×N, not H×N.
pub fn show_imports<W: Write>(output: &mut W) -> Result<(), Trouble> {
    print(output, b"imports\n")?;
    show(output, Kind::Import, 300, 300, 0, 0, 0, 0, 10000, 9000)?;
    show_ancillary(output, Kind::Import, 300, 300, 50, 20, 0, 0, 10000, 9000)?;
    show(output, Kind::Import, 300, 300, -50, 0, 0, 0, 10000, 9000)
}

pub fn show_exports<W: Write>(output: &mut W) -> Result<(), Trouble> {
    print(output, b"exports\n")?;
    show(output, Kind::Export, 200, 180, 0, 0, 0, 0, 0, 0)?;
    show(output, Kind::Export, 200, 180, 30, 0, 0, 0, 0, 0)?;
    show(output, Kind::Export, 200, 180, -30, 0, 0, 0, 0, 0)
}
