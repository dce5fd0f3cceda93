//! What a command line asks for, with each value checked for its range, so that no later code has to look at the words again.
ghost use Rattle.std.specs.Prelude.{◌≡◌, ◌≤◌, ◌%◌, Some, None, if◌then◌else◌, option_map};
ghost use Rattle.command_line.specs.CommandLine.{is_base};

use rule_table::LearnOptions;
use thumb_instr::Within;

/// The greatest base of an image.
const BASE_LIMIT: u32 = 268_435_456;

/// An address that an image may begin at: a multiple of 4 up to 268,435,456.
#[derive(Clone, Copy)]
pub struct Base {
    pub address: u32,
    pub ghost aligned: { address % 4 ≡ 0 },
    pub ghost small: { address ≤ 268435456 },
}

impl Base {
    /// The base of this address, or None if it isn't a multiple of 4 or is over the limit.
    pub fn new(address: u32) -> Option<Base>
        ensures { option_map (λ b. b.address) result ≡ (if is_base address then Some address else None) }
    {
        if address % 4 == 0 && address <= BASE_LIMIT {
            Some(Base { address })
        } else {
            None
        }
    }
}

/// A command, with the values of its words and options.
#[derive(Drop)]
pub enum Command {
    /// Rewrite the listing by the table, keep the result as `out`, and its image, laid out from `base` on, as `image`.
    Rewrite {
        table: String,
        listing: String,
        out: String,
        image: String,
        base: Base,
    },
    /// Read and audit the table.
    Audit {
        table: String,
    },
    /// Learn a table from the windows of the listing, and keep it as `out`: in version 4 by the costs of a text, where one is named, and else in version 2.
    Learn {
        listing: String,
        out: String,
        /// The name of a text that says what each instruction costs.
        cost_text: Option<String>,
        /// The settings of the learner, but for costs.
        options: LearnOptions,
    },
    /// Keep the formula of an entry or a family, counted from 1 with the families after the entries, as `cnf`, and its proof as `lrat`.
    Export {
        table: String,
        entry: u32,
        cnf: String,
        lrat: String,
    },
    /// Run the listing from a code label for at most so many steps, and print the run's events.
    Trace {
        listing: String,
        label: String,
        /// Up to 1,000,000.
        steps: u32,
    },
    /// Make a listing of so many windows, learn a table from it, rewrite the listing by that table, and print the counts.
    Demo {
        windows: Within<1, 20_001>,
    },
    /// Audit the table, and keep it as `out` in version 2, or unchanged if its version is 2 or later.
    Upgrade {
        table: String,
        out: String,
    },
    /// Audit the table, and keep it as `out` with its proofs reduced to the lines and hints that they need.
    Trim {
        table: String,
        out: String,
    },
    /// Tidy the listing so that it can be laid out from `base` on, and keep the result as `out`.
    Tidy {
        listing: String,
        out: String,
        base: Base,
    },
    /// Audit the table, and keep it as `out` with one more family: an entry, counted from 1, in which `number` may take each value from `low` to `high`.
    Generalise {
        table: String,
        entry: u32,
        number: u8,
        low: u8,
        high: u8,
        out: String,
    },
}
