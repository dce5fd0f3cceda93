//! Lets a branch go to another label, in a list of lines: its line is replaced by a new one, and all other lines keep their bytes.
ghost use Rattle.std.specs.Prelude.{◌≡◌, [], Some, map, IfOk};
ghost use Rattle.thumb_model.specs.Listing.{Instruction};
ghost use Rattle.listing_parser.specs.Directives.{Unmarked};
ghost use Rattle.listing_parser.specs.ToldView.{mark_view};
ghost use Rattle.listing_parser.specs.Views.{line_view};
ghost use Rattle.listing_parser.specs.Parsing.{line_mentioning};
ghost use Rattle.listing_parser.specs.Targets.{aimed_lines};

use crate::errors::Memory;
use crate::line::{FunctionMark, ListingLine, Mention, Statement};
use crate::replacing::{add_labels, add_without, copy_line, own_text};
use std::alloc::Global;
use thumb_instr::Instr;
use thumb_syntax::{Label, Parsed};

/// A line of its own for a branch to a label: a tab, its canonical text with the label's name and a newline.
#[tactic(auto, unfolding(crate::specs::Parsing::line_mentioning))]
pub fn branch_line(alloc: Global, instr: &Instr, name: &[u8]) -> Result<ListingLine, Memory>
    ensures line { IfOk result (λ l. line_view l ≡ record {
      names = [];
      statement = Instruction instr.now (Some (record { name = name.now; plus = 0 }));
      text = line_mentioning instr.now (Some (record { name = name.now; plus = 0 }));
      front = [];
    }) }
    ensures mark { IfOk result (λ l. mark_view l.mark ≡ Unmarked) }
{
    let label = Some(Label { name, added: 0 });
    let text = own_text(
        alloc,
        &Parsed {
            instr: *instr,
            label,
        },
    )?;
    let name = name.to_vec(alloc)?;
    Ok(ListingLine {
        names: Vec::new(alloc),
        statement: Statement::Instruction {
            instr: *instr,
            mention: Some(Mention { name, plus: 0 }),
        },
        mark: FunctionMark::Nothing,
        text,
        front: 0,
    })
}

/// The lines with the branch at a place going to a label.
pub fn retargeted_lines(
    alloc: Global,
    lines: &[ListingLine],
    place: usize,
    name: &[u8],
) -> Result<Vec<ListingLine>, Memory>
    ensures { IfOk result (λ v. map line_view v.items ≡ aimed_lines line_mentioning place name.now (map line_view lines.now)) }
{
    let mut out = Vec::with_capacity(alloc, lines.len())?;
    let mut passing = place;
    for (n, line) in lines.iter().enumerate() {
        if passing == 0 {
            if let Statement::Instruction { instr, .. } = &line.statement {
                add_labels(alloc, &mut out, line)?;
                let branch = branch_line(alloc, instr, name)?;
                out.push(branch)?;
                let (_, after) = lines.split_at(n + 1);
                add_without(alloc, &mut out, after, 0)?;
                return Ok(out);
            }
        }
        passing = passing.saturating_sub(line.statement.places());
        let line = copy_line(alloc, line)?;
        out.push(line)?;
    }
    Ok(out)
}
