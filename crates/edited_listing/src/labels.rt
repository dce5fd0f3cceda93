//! Where labels stand among the places of lines, in one pass over these.
ghost use Rattle.std.specs.Prelude.{◌≡◌, ◌<◌, ◌^◌, ◌++◌, suc, map, replicate, false, if◌then◌else◌, IfOk, OnOk};
ghost use Rattle.thumb_model.specs.Listing.{Words};
ghost use Rattle.listing_parser.specs.Views.{line_view, statement_view, value_view};
ghost use Rattle.edited_listing.specs.Counting.{labels_in, op_labels};
ghost use Rattle.edited_listing.specs.Known.{last_labels};

use listing_parser::{ListingLine, Statement, Value};
use std::alloc::{AllocError, Global};

/// What is known of labels at each place of lines: one more than the place of the last label up to it, 0 where there is none, and whether a label stands on
/// its instruction's line.
#[derive(Drop)]
pub(crate) struct Labels {
    pub(crate) lasts: Vec<usize>,
    pub(crate) labelled: Vec<bool>,
}

/// What is known of labels at each place of lines. Room is reserved for `places` places.
pub(crate) fn labels_of(
    alloc: Global,
    lines: &[ListingLine],
    places: usize,
) -> Result<Labels, AllocError>
    ensures lasts { IfOk result (λ l. l.lasts.items ≡ last_labels 0 0 (map line_view lines.now)) }
    ensures labelled { IfOk result (λ l. l.labelled.items ≡ op_labels (map line_view lines.now)) }
{
    let mut lasts = Vec::with_capacity(alloc, places)?;
    let mut labelled = Vec::with_capacity(alloc, places)?;
    let mut last = 0;
    for line in lines {
        let is_labelled = !line.names.is_empty();
        last = last_with(is_labelled, lasts.len(), last);
        add_times(&mut lasts, last, line.statement.places())?;
        add_places(&mut labelled, &line.statement, is_labelled)?;
    }
    Ok(Labels { lasts, labelled })
}

/// One more than `place` if a label stands there, or else `before`.
fn last_with(is_labelled: bool, place: usize, before: usize) -> usize
    requires { place < 2 ^ 63 }
    ensures { result ≡ (if is_labelled then suc place else before) }
{
    if is_labelled { place + 1 } else { before }
}

/// Adds a number so many times.
fn add_times(numbers: &mut Vec<usize>, number: usize, times: usize) -> Result<(), AllocError>
    ensures { OnOk result (numbers.new.items ≡ numbers.old.items ++ replicate times number) }
{
    for _time in 0..times {
        numbers.push(number)?;
    }
    Ok(())
}

/// Adds for each place of a statement whether a label stands on its instruction's line.
fn add_places(
    labels: &mut Vec<bool>,
    statement: &Statement,
    is_labelled: bool,
) -> Result<(), AllocError>
    ensures { OnOk result (labels.new.items ≡ labels.old.items ++ labels_in is_labelled (statement_view statement.now)) }
{
    match statement {
        Statement::Instruction { .. } => {
            labels.push(is_labelled)?;
            Ok(())
        }
        Statement::Words(values) => add_words(labels, values),
        _ => Ok(()),
    }
}

/// Adds data words, which have no instruction's line.
fn add_words(labels: &mut Vec<bool>, values: &[Value]) -> Result<(), AllocError>
    ensures { OnOk result (labels.new.items ≡ labels.old.items ++ labels_in false (Words (map value_view values.now))) }
{
    for _value in values {
        labels.push(false)?;
    }
    Ok(())
}
