//! The directives of a listing by name, a row each: which have a meaning here, and which are kept as they stand.
ghost use Rattle.std.specs.Prelude.{◌≡◌, map};
ghost use Rattle.listing_parser.specs.Directives.{directives, directive_in, directive_named};
ghost use Rattle.listing_parser.specs.DirectiveView.{row_of};

/// What a directive is read as.
#[derive(Clone, Copy)]
pub enum Directive {
    /// `.word`: words of data.
    Word,
    /// `.align n`: padding to a multiple of 2^n bytes; `.align 0` means `.align 2`.
    Align,
    /// `.p2align n`: the same, but `.p2align 0` pads nothing.
    PowerAlign,
    /// `.set`, `.equ`: the address of a name.
    Set,
    /// `.thumb_func`: the next label is a function.
    ThumbFunc,
    /// `.type`: `name, %function` marks the name, all else is kept.
    Type,
    /// `.syntax unified`.
    Syntax,
    /// `.code 16`.
    Code,
    /// `.thumb`, `.text`: alone on their line.
    Bare,
    /// `.section` with a name of code.
    Section,
    /// Kept as it is, whatever the rest of the line says.
    Kept,
}

/// A directive with its name.
struct Named {
    name: &'static [u8],
    directive: Directive,
}

static DIRECTIVES: [Named; 28] = [
    Named {
        name: b".word",
        directive: Directive::Word,
    },
    Named {
        name: b".align",
        directive: Directive::Align,
    },
    Named {
        name: b".p2align",
        directive: Directive::PowerAlign,
    },
    Named {
        name: b".set",
        directive: Directive::Set,
    },
    Named {
        name: b".equ",
        directive: Directive::Set,
    },
    Named {
        name: b".thumb_func",
        directive: Directive::ThumbFunc,
    },
    Named {
        name: b".type",
        directive: Directive::Type,
    },
    Named {
        name: b".syntax",
        directive: Directive::Syntax,
    },
    Named {
        name: b".code",
        directive: Directive::Code,
    },
    Named {
        name: b".thumb",
        directive: Directive::Bare,
    },
    Named {
        name: b".text",
        directive: Directive::Bare,
    },
    Named {
        name: b".section",
        directive: Directive::Section,
    },
    Named {
        name: b".cpu",
        directive: Directive::Kept,
    },
    Named {
        name: b".arch",
        directive: Directive::Kept,
    },
    Named {
        name: b".fpu",
        directive: Directive::Kept,
    },
    Named {
        name: b".eabi_attribute",
        directive: Directive::Kept,
    },
    Named {
        name: b".file",
        directive: Directive::Kept,
    },
    Named {
        name: b".loc",
        directive: Directive::Kept,
    },
    Named {
        name: b".ident",
        directive: Directive::Kept,
    },
    Named {
        name: b".global",
        directive: Directive::Kept,
    },
    Named {
        name: b".globl",
        directive: Directive::Kept,
    },
    Named {
        name: b".weak",
        directive: Directive::Kept,
    },
    Named {
        name: b".hidden",
        directive: Directive::Kept,
    },
    Named {
        name: b".extern",
        directive: Directive::Kept,
    },
    Named {
        name: b".size",
        directive: Directive::Kept,
    },
    Named {
        name: b".comm",
        directive: Directive::Kept,
    },
    Named {
        name: b".local",
        directive: Directive::Kept,
    },
    Named {
        name: b".force_thumb",
        directive: Directive::Kept,
    },
];

#[tactic(auto, unfolding(crate::specs::Directives::directives))]
fn directives() -> &'static [Named]
    ensures { map row_of result.now ≡ directives }
{
    &DIRECTIVES
}

/// The directive of the first row of that name.
fn directive_in(rows: &[Named], word: &[u8]) -> Option<Directive>
    ensures { result ≡ directive_in (map row_of rows.now) word.now }
{
    for row in rows {
        if word == row.name {
            return Some(row.directive);
        }
    }
    None
}

/// The directive of that name.
#[tactic(auto, unfolding(crate::specs::Directives::directive_named))]
pub fn directive_named(word: &[u8]) -> Option<Directive>
    ensures { result ≡ directive_named word.now }
{
    if word.starts_with(b".cfi_") {
        Some(Directive::Kept)
    } else {
        directive_in(directives(), word)
    }
}
