//! Answers the rows of standard input, `call input = result`, by the calls of `const_oid`. It prints each row that has
//! another result, or none, with its result, and then how many rows there are. Rows `entry` are those of the tables of
//! names that other rows ask.
#![tactic(auto)]

mod identifiers;
mod relations;
mod typed;

use anyhow::{Context, Result};
use const_oid::db::SortedDatabase;
use const_oid::tables::Tables;
use const_oid::{Arc, ObjectIdentifierRef};
use std::alloc::Global;
use std::io::{BufRead, BufReader};
use std::str;

/// The tables of names that rows ask, and those in the order of arcs.
#[derive(Clone, Copy)]
struct Names<'a, 'b> {
    tables: Tables<'a>,
    sorted: &'b [SortedDatabase<'b>],
}

/// A row with `COUNT` units for each `{UNIT*COUNT}`.
fn expanded(alloc: Global, row: &str) -> Result<String> {
    let mut whole = String::new(alloc);
    for part in row.split('{') {
        let mut rest = part;
        if let Some((repeated, after)) = part.split_once('}') {
            let (unit, count) = repeated.split_once('*').context("no count")?;
            whole.push_str(&unit.repeat(alloc, count.parse()?)?)?;
            rest = after;
        }
        whole.push_str(rest)?;
    }
    Ok(whole)
}

/// The words of a row.
fn words(alloc: Global, input: &str) -> Result<Vec<&str>> {
    let words = input.split(' ').filter(|word| !word.is_empty());
    Ok(words.collect(alloc)?)
}

/// The arcs of a row.
fn arcs(alloc: Global, input: &str) -> Result<Vec<Arc>> {
    let mut arcs = Vec::new(alloc);
    for word in words(alloc, input)? {
        arcs.push(word.parse()?)?;
    }
    Ok(arcs)
}

/// The octets of each word of a row.
fn items(alloc: Global, input: &str) -> Result<Vec<Vec<u8>>> {
    let mut items = Vec::new(alloc);
    for word in words(alloc, input)? {
        items.push(hex::decode(alloc, word.as_bytes())?)?;
    }
    Ok(items)
}

/// The result of a row that begins with octets.
fn of_octets(
    alloc: Global,
    names: Names<'_, '_>,
    call: &str,
    octets: &[u8],
    rest: &str,
) -> Result<String> {
    match call {
        "octets" => identifiers::octets(alloc, octets),
        "element" => identifiers::element(alloc, octets),
        "bytes" => match str::from_utf8(octets) {
            Ok(text) => identifiers::text(alloc, text),
            Err(_) => Ok(String::from_str(alloc, "no text")?),
        },
        "arcs_from" => identifiers::arcs_from(alloc, octets, &arcs(alloc, rest)?),
        "parent" => relations::parent(alloc, octets),
        "child" => relations::child(alloc, octets, rest.parse()?),
        "list" => relations::list(alloc, octets, &items(alloc, rest)?),
        "names" => relations::names(alloc, octets, &words(alloc, rest)?),
        "display" => typed::display(alloc, names.tables, octets),
        "nearest" => typed::nearest(alloc, names.sorted, octets),
        _ => {
            let word = relations::pair(call, octets, &hex::decode(alloc, rest.as_bytes())?)?;
            Ok(String::from_str(alloc, word)?)
        }
    }
}

/// The result of a row of one identifier or of a list.
fn of_one(alloc: Global, names: Names<'_, '_>, call: &str, input: &str) -> Result<String> {
    let (first, rest) = input.split_once(' ').unwrap_or((input, ""));
    match call {
        "text" => identifiers::text(alloc, input),
        "text_in" => identifiers::text_in(alloc, first.parse()?, rest),
        "component" => match ObjectIdentifierRef::wrong_component(input.as_bytes()) {
            Some(index) => Ok(format!(in alloc; "{index}")?),
            None => Ok(String::from_str(alloc, "none")?),
        },
        "arcs" => identifiers::arcs(alloc, &arcs(alloc, input)?),
        "arcs_in" => identifiers::arcs_in(alloc, first.parse()?, &arcs(alloc, rest)?),
        "sorted" => relations::sorted(alloc, &items(alloc, input)?),
        "entry" => {
            let (octets, name) = rest.split_once(' ').context("no name")?;
            typed::names(alloc, names.tables, octets, name)
        }
        "parse" => typed::parse(alloc, names.tables, first.parse()?, rest),
        "parse_bytes" => typed::parse_bytes(alloc, names.tables, first.parse()?, rest),
        _ => of_octets(
            alloc,
            names,
            call,
            &hex::decode(alloc, first.as_bytes())?,
            rest,
        ),
    }
}

/// The result of a row. What the library for C alone has, an order or an error, is left to it, as `None`.
fn answer(alloc: Global, names: Names<'_, '_>, call: &str, input: &str) -> Result<Option<String>> {
    match (call, call.strip_suffix("_order")) {
        ("items_order", _) => Ok(None),
        ("error", _) => identifiers::error(alloc, &arcs(alloc, input)?),
        (_, Some(call)) => {
            let word = relations::in_order(call, &items(alloc, input)?)?;
            Ok(Some(String::from_str(alloc, word)?))
        }
        _ => Ok(Some(of_one(alloc, names, call, input)?)),
    }
}

/// A row's result, if the row has none or another one.
fn said(alloc: Global, names: Names<'_, '_>, row: &str) -> Result<Option<String>> {
    let (question, expected) = row.split_once(" = ").unwrap_or((row, ""));
    let (call, input) = question.split_once(' ').unwrap_or((question, ""));
    let said = match answer(alloc, names, call, input) {
        Ok(said) => said,
        Err(error) => Some(format!(in alloc; "error: {error}")?),
    };
    Ok(said.filter(|said| said.as_str() != expected))
}

fn main(rt: HostRuntime) -> Result<()> {
    let mut rows = Vec::new(rt.alloc());
    for row in BufReader::new(rt.alloc(), rt.reader())?.lines(rt.alloc()) {
        let row = row?;
        if !row.as_str().starts_with('#') {
            rows.push(expanded(rt.alloc(), row.as_str())?)?;
        }
    }
    let first = typed::entries(rt.alloc(), &rows, "entry 1 ")?;
    let second = typed::entries(rt.alloc(), &rows, "entry 2 ")?;
    let first = typed::lent(rt.alloc(), &first)?;
    let second = typed::lent(rt.alloc(), &second)?;
    let mut memory = Vec::new(rt.alloc());
    let tables = typed::indexed(rt.alloc(), &first, &second, &mut memory)?;
    let first_in_order = typed::in_order(rt.alloc(), &first)?;
    let second_in_order = typed::in_order(rt.alloc(), &second)?;
    let sorted = typed::sorted(rt.alloc(), &first_in_order, &second_in_order)?;
    let names = Names {
        tables: Tables(&tables),
        sorted: &sorted,
    };
    for row in &rows {
        if let Some(said) = said(rt.alloc(), names, row)? {
            println!(rt; "{row} = {said}")?;
        }
    }
    println!(rt; "{} rows", rows.len())?;
    Ok(())
}
