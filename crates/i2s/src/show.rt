//! A half of a block in words.
use crate::driven::Driven;
use blocks::RegBlock;
use fields::{Field, Side};
use marks::{Events, Marks};
use names::{FieldName, RX_FIELDS, TX_FIELDS};
use std::io;

/// The name of a half.
pub(crate) fn half_name(half: Side) -> &'static str {
    match half {
        Side::Transmit => "transmit",
        Side::Receive => "receive",
    }
}

/// Prints the fields of a half that are not 0, and its marks.
pub(crate) fn print_half<C: Driven>(rt: &HostRuntime, chip: &C, half: Side) -> io::Result<()> {
    println!(rt; "the {} half, fields that are not 0:", half_name(half))?;
    match half {
        Side::Transmit => {
            for field in TX_FIELDS.iter() {
                print_field(rt, chip, Field::Tx(*field))?;
            }
        }
        Side::Receive => {
            for field in RX_FIELDS.iter() {
                print_field(rt, chip, Field::Rx(*field))?;
            }
        }
    }
    print_marks(rt, &chip.marks(half))
}

fn print_field<C: RegBlock>(rt: &HostRuntime, chip: &C, field: Field) -> io::Result<()> {
    let number = chip.get(field);
    if number != 0 {
        println!(rt; "  {} = {number}", FieldName(field))?;
    }
    Ok(())
}

/// Prints fields with their numbers, whatever they are.
pub(crate) fn print_numbers<C: RegBlock>(
    rt: &HostRuntime,
    chip: &C,
    fields: &[Field],
) -> io::Result<()> {
    let mut between = "";
    for field in fields {
        print!(rt; "{between}{} {}", FieldName(*field), chip.get(*field))?;
        between = ", ";
    }
    Ok(())
}

fn print_marks(rt: &HostRuntime, marks: &Marks) -> io::Result<()> {
    print!(rt; "  marks that are up:")?;
    for (name, is_up) in [
        (" busy", marks.busy),
        (" stale", marks.stale),
        (" link", marks.link),
        (" pending", marks.pending),
        (" hung-bit", marks.hung),
    ] {
        if is_up {
            print!(rt; "{name}")?;
        }
    }
    println!(rt; "; late {}, wait {}", marks.late, marks.wait)?;
    print_events(rt, "events that stand", marks.events)?;
    print_events(rt, "events that are enabled", marks.enabled)
}

fn print_events(rt: &HostRuntime, what: &str, events: Events) -> io::Result<()> {
    print!(rt; "  {what}:")?;
    for (name, is_named) in [
        (" hung", events.hung),
        (" done", events.done),
        (" link-done", events.link_done),
        (" eof", events.eof),
    ] {
        if is_named {
            print!(rt; "{name}")?;
        }
    }
    println!(rt; "")
}
