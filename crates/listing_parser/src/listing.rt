//! A listing is its lines. By an invariant the tables beside them are determined by the lines alone, so they can't disagree with the text.
ghost use Rattle.std.specs.Prelude.{◌≡◌, option_map, slice_get};
ghost use Rattle.thumb_model.specs.Listing.{places_in};
ghost use Rattle.listing_parser.specs.Views.{line_view, place_view};

use crate::errors::Memory;
use crate::index::ListingIndex;
use crate::line::{ListingLine, Place, Statement};
use crate::replacing::replaced_lines;
use crate::retargeting::retargeted_lines;
use std::alloc::Global;
use std::marker::Model;
use thumb_instr::Instr;

/// A listing: its lines, with tables by which places and names are found in constant time.
///
/// A place is an instruction or a data word. Places are numbered from 0 in the order of the lines, and so are lines.
#[derive(Drop)]
pub struct Listing {
    lines: Vec<ListingLine>,
    index: ListingIndex,
}

impl Model for Listing {
    ghost use Rattle.std.specs.Prelude.{map, List};
    ghost use Rattle.thumb_model.specs.Listing.{ListingLine};

    ghost Value = { List ListingLine };

    ghost use Rattle.listing_parser.specs.Views.{line_view};
    ghost use Rattle.listing_parser.specs.Tables.{IsIndex};

    ghost view = { λ l. map line_view l.lines.items };

    ghost invariant = { λ l. IsIndex (map line_view l.lines.items) l.index };
}

/// The place of this number within a line.
fn place_in(line: &ListingLine, item: usize) -> Option<Place<'_>>
    ensures { option_map place_view result ≡ slice_get (places_in (line_view line.now).statement) item }
{
    match &line.statement {
        Statement::Instruction { instr, mention } => {
            if item == 0 {
                Some(Place::Op {
                    instr: *instr,
                    mention: mention.as_ref(),
                })
            } else {
                None
            }
        }
        Statement::Words(values) => match values.get(item) {
            Some(value) => Some(Place::Word(value)),
            None => None,
        },
        _ => None,
    }
}

impl Listing {
    ghost use Rattle.std.specs.Prelude.{◌≡◌, ◌≤◌, ◌<◌, ◌+◌, ◌^◌, ◌⊎◌, ℕ, true, Some, IfOk, map, option_map, slice_get, length, take};
    ghost use Rattle.thumb_model.specs.Listing.{code_of, place_of, places_of, labels_from, is_op_place, Label};
    ghost use Rattle.thumb_model.specs.Layout.{set_address};
    ghost use Rattle.thumb_model.specs.Steps.{label_place};
    ghost use Rattle.thumb_model.specs.Replaced.{are_joined_from, replaced_lines};
    ghost use Rattle.listing_parser.specs.Targets.{aimed_lines};
    ghost use Rattle.listing_parser.specs.Parsing.{line_mentioning};
    ghost use Rattle.std.specs.List.{list_all};
    ghost use Rattle.listing_parser.specs.Replacing.{names_no_label};
    ghost use Rattle.listing_parser.specs.Parsing.{own_line};
    ghost use Rattle.listing_parser.specs.Views.{line_view, place_view};
    ghost use Rattle.listing_parser.specs.TableWords.{label_line, words_from};
    ghost use Rattle.listing_parser.specs.Targets.{DefineOnce};
    ghost use Rattle.listing_parser.specs.Targets.{from_label};

    /// The listing of lines that define no name twice and have fewer than 2^32 places.
    pub fn of(alloc: Global, lines: Vec<ListingLine>) -> Result<Listing, Memory>
        requires few { length (places_of (map line_view lines.items)) < 2 ^ 32 }
        requires once { DefineOnce (map line_view lines.items) }
        ensures { IfOk result (λ l. l ≡ map line_view lines.items) }
    {
        let index = ListingIndex::of(alloc, &lines)?;
        Ok(Listing { lines, index })
    }

    /// The lines in order.
    pub fn lines(&self) -> &[ListingLine]
        ensures { map line_view result.now ≡ self.now }
    {
        self.lines.as_slice()
    }

    /// The lines in order, without the tables.
    pub fn into_lines(self) -> Vec<ListingLine>
        ensures lines { map line_view result.items ≡ self }
        ensures few { length (places_of self) < 2 ^ 32 }
        ensures once { DefineOnce self }
    {
        self.lines
    }

    /// How many places there are.
    pub fn place_count(&self) -> u32
        ensures { result ≡ length (places_of self.now) }
    {
        self.index.spots.len() as u32
    }

    /// The place of this number.
    pub fn place(&self, place: u32) -> Option<Place<'_>>
        ensures { option_map place_view result ≡ slice_get (places_of self.now) place }
    {
        match self.index.spots.get(place as usize) {
            None => None,
            Some(spot) => place_in(&self.lines[spot.line], spot.item),
        }
    }

    /// The first line, by its index, that has a label of the name.
    pub fn label_line(&self, name: &[u8]) -> Option<usize>
        ensures { result ≡ label_line name.now 0 self.now }
    {
        self.index.labels.get(name).copied()
    }

    /// How many data words follow from the label of the name on, up to the next instruction or alignment line. 0 where there is no such label.
    pub fn words_from(&self, name: &[u8]) -> usize
        ensures { result ≡ words_from (from_label name.now self.now) }
    {
        match self.label_line(name) {
            None => 0,
            Some(line) => self.index.runs[line],
        }
    }

    /// The place that the label of the name stands before, be it an instruction, a data word or the end.
    pub fn label_place(&self, name: &[u8]) -> Option<u32>
        ensures { result ≡ label_place name.now (labels_from 0 self.now) }
    {
        match self.label_line(name) {
            None => None,
            Some(line) => Some(self.index.passed[line].places as u32),
        }
    }

    /// Whether an instruction stands at the place.
    pub fn is_op(&self, place: u32) -> bool
        ensures { result ≡ is_op_place (slice_get (places_of self.now) place) }
    {
        matches!(self.place(place), Some(Place::Op { .. }))
    }

    /// The place of the code label of the name: one that stands before an instruction.
    pub fn place_of(&self, name: &[u8]) -> Option<u32>
        ensures { result ≡ place_of (code_of self.now) name.now }
    {
        // For the prover alone: a read of a field shows the type's invariant, that no name is defined twice.
        let _ = &self.lines;
        match self.label_place(name) {
            None => None,
            Some(place) => { if self.is_op(place) { Some(place) } else { None } }
        }
    }

    /// The address that is set for the name.
    pub fn set_address(&self, name: &[u8]) -> Option<u32>
        ensures { result ≡ set_address name.now self.now }
    {
        self.index.addresses.get(name).copied()
    }

    /// The listing with these instructions in place of the `count` from a place on, between which neither a label nor an alignment line stands. Of the
    /// first one's line its labels stay, on a line of their own, up to and including the last colon. Then comes a line for each new instruction: a tab, its
    /// canonical text and a newline. The old instructions' lines go, with their comments; all other lines stay byte for byte.
    pub fn replaced(
        &self,
        alloc: Global,
        place: u32,
        count: u32,
        instrs: &[Instr],
    ) -> Result<Listing, Memory>
        requires some { 1 ≤ count }
        requires window { (k : ℕ) → k < count → is_op_place (slice_get (places_of self.now) (place + k)) ≡ true }
        requires unlabelled { (k : ℕ) (l : Label) → slice_get (labels_from 0 self.now) k ≡ Some l → (l.place ≤ place) ⊎ (place + count ≤ l.place) }
        requires joined { are_joined_from place count self.now ≡ true }
        requires few { length instrs.now ≤ count }
        requires plain { list_all names_no_label instrs.now ≡ true }
        ensures { IfOk result (λ l. l ≡ replaced_lines own_line place count instrs.now self.now) }
    {
        let lines = replaced_lines(alloc, &self.lines, place as usize, count as usize, instrs)?;
        Listing::of(alloc, lines)
    }

    /// The listing with the branch at a place going to another code label. Its labels stay, on a line of their own, up to and including the last colon. Then
    /// comes a line of the branch's own: a tab, its canonical text with the label's name and a newline. All other lines stay byte for byte.
    pub fn retargeted(&self, alloc: Global, place: u32, name: &[u8]) -> Result<Listing, Memory>
        requires op { is_op_place (slice_get (places_of self.now) place) ≡ true }
        ensures { IfOk result (λ l. l ≡ aimed_lines line_mentioning place name.now self.now) }
    {
        let lines = retargeted_lines(alloc, &self.lines, place as usize, name)?;
        Listing::of(alloc, lines)
    }
}
