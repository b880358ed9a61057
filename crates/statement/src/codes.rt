// Which statement a code begins.
ghost use Rattle.std.specs.Prelude.{◌≡◌, Some, None, MatchResult};
ghost use Rattle.statement.specs.declared.types.Fault.TheVariants.{UnknownCode};
ghost use Rattle.statement.specs.Statements.{layout_of};

use crate::layout::{Aim, Bare, Layout, Manner, Setting, Trace};
use crate::types::Fault;

impl TryFrom<u8> for Layout {
    type Error = Fault;

    ghost try_from_gives = { λ code result. MatchResult result (λ layout. layout_of code ≡ Some layout) (λ fault. (layout_of code ≡ None) × (fault ≡ UnknownCode)) };

    // What follows a code, if there is such a code.
    fn try_from(code: u8) -> Result<Layout, Fault> {
        Ok(match code {
            0 => Layout::Bare(Bare::Null),
            1 => Layout::Bare(Bare::Erase),
            2 => Layout::Pair(Trace::Blank, Aim::Absolute),
            3 => Layout::Pair(Trace::Blank, Aim::Relative),
            4 => Layout::Pair(Trace::Line, Aim::Absolute),
            5 => Layout::Pair(Trace::Line, Aim::Relative),
            6 => Layout::Pair(Trace::Dot, Aim::Absolute),
            7 => Layout::Pair(Trace::Dot, Aim::Relative),
            8 => Layout::Text(Manner::Onward),
            9 => Layout::Text(Manner::Restoring),
            10 => Layout::Bare(Bare::Endpic),
            11 => Layout::Escape,
            12 => Layout::Value(Setting::LineMode),
            13 => Layout::Value(Setting::Intensity),
            14 => Layout::Text(Manner::Wrapping),
            15 => Layout::Heading,
            16 => Layout::Bare(Bare::Subend),
            17 => Layout::Calling,
            18 => Layout::Bare(Bare::Mark),
            19 => Layout::Bare(Bare::Movemk),
            20 => Layout::Bare(Bare::Drawmk),
            _ => return Err(Fault::UnknownCode),
        })
    }
}
