ghost use Rattle.std.specs.Prelude.{◌≡◌, ◌++◌, ◌+◌, List, take, IfOk, string_bytes};
ghost use Rattle.std.specs.List.{flat_map};
ghost use Rattle.history_model.specs.Contents.{Content};
ghost use Rattle.core_laws.specs.contents.Aligned.{top};
ghost use Rattle.report.specs.Reports.{IsReport, head_lines, row_line, level_line, level_lines};
ghost use Rattle.report.specs.Roots.{TellsReport};

use crate::rows::{ReportRow, rows};
use history_model::History;
use std::alloc::{AllocError, Global};
use vw_cell::Memory;
use world_core::Closed;

/// The report of what a closed world left.
pub fn report_text(alloc: Global, closed: &Closed) -> Result<Vec<u8>, Memory>
    ensures { IfOk result (λ text. (models : List Content) → TellsReport models closed.now
        → IsReport models closed.now.history text.items) }
{
    let rows = rows(alloc, closed.roots.as_slice())?;
    let mut text = head_text(alloc, &closed.history)?;
    put_rows(&mut text, &rows)?;
    put_levels(&mut text, level_numbers(closed))?;
    Ok(text.into_bytes())
}

// How many nodes of each level of the world were live, from level 0 up.
fn level_numbers(closed: &Closed) -> &[u32]
    ensures { result.now ≡ take (top closed.now.history.side + 1) closed.now.live }
{
    let levels = usize::from(closed.history.side.root_level()) + 1;
    &closed.live[..levels]
}

// The lines before the rows.
fn head_text(alloc: Global, history: &History) -> Result<String, AllocError>
    ensures { IfOk result (λ text. string_bytes text ≡ head_lines history.now) }
{
    let side = history.side.cells();
    let records = history.records.len();
    let marks = history.marks.len();
    let mut text = String::new(alloc);
    write!(
        text,
        "voxdag report 1\nside {side}\nrecords {records}\nmarks {marks}\n"
    )?;
    Ok(text)
}

// Appends a line for each row.
fn put_rows(text: &mut String, rows: &[ReportRow]) -> Result<(), AllocError>
    ensures { IfOk result
        (λ _. string_bytes text.new ≡ string_bytes text.old ++ flat_map row_line rows.now) }
{
    for row in rows {
        put_row(text, *row)?;
    }
    Ok(())
}

fn put_row(text: &mut String, row: ReportRow) -> Result<(), AllocError>
    ensures { IfOk result (λ _. string_bytes text.new ≡ string_bytes text.old ++ row_line row) }
{
    let version = row.version;
    match row.first {
        None => write!(text, "version {version} empty\n"),
        Some(first) => write!(text, "version {version} root {first}\n"),
    }
}

// Appends a line for each level.
fn put_levels(text: &mut String, numbers: &[u32]) -> Result<(), AllocError>
    ensures { IfOk result
        (λ _. string_bytes text.new ≡ string_bytes text.old ++ level_lines 0 numbers.now) }
{
    for (level, number) in numbers.iter().enumerate() {
        put_level(text, level, *number)?;
    }
    Ok(())
}

fn put_level(text: &mut String, level: usize, number: u32) -> Result<(), AllocError>
    ensures { IfOk result
        (λ _. string_bytes text.new ≡ string_bytes text.old ++ level_line level number) }
{
    write!(text, "level {level} nodes {number}\n")
}
