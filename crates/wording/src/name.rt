// The names of codes, and the headers.
ghost use Rattle.std.specs.Prelude.{◌≡◌};
ghost use Rattle.wording.specs.Texts.{entry};
ghost use Rattle.wording.specs.Words.{bare_names, travel_names, other_names, names, headers};

use statement::layout::{Aim, Bare, Layout, Manner, Setting, Trace};
use statement::types::Header;

// The header that a text is, in base 16.
pub(crate) fn header_in(text: &[u8]) -> Option<Header>
    ensures { result ≡ entry headers text.now }
{
    match text {
        b"80" => Some(Header::Simple),
        b"40" => Some(Header::Full),
        b"C0" => Some(Header::Both),
        _ => None,
    }
}

// What follows the code of a name, if it is the name of a statement that is a code alone.
fn bare_named(name: &[u8]) -> Option<Layout>
    ensures { result ≡ entry bare_names name.now }
{
    match name {
        b"NULL" => Some(Layout::Bare(Bare::Null)),
        b"ERASE" => Some(Layout::Bare(Bare::Erase)),
        b"ENDPIC" => Some(Layout::Bare(Bare::Endpic)),
        b"SUBEND" => Some(Layout::Bare(Bare::Subend)),
        b"MARK" => Some(Layout::Bare(Bare::Mark)),
        b"MOVEMK" => Some(Layout::Bare(Bare::Movemk)),
        b"DRAWMK" => Some(Layout::Bare(Bare::Drawmk)),
        _ => None,
    }
}

// The same of a name of a statement with a pair of coordinates.
fn travel_named(name: &[u8]) -> Option<Layout>
    ensures { result ≡ entry travel_names name.now }
{
    match name {
        b"MOVEA" => Some(Layout::Pair(Trace::Blank, Aim::Absolute)),
        b"MOVER" => Some(Layout::Pair(Trace::Blank, Aim::Relative)),
        b"DRAWA" => Some(Layout::Pair(Trace::Line, Aim::Absolute)),
        b"DRAWR" => Some(Layout::Pair(Trace::Line, Aim::Relative)),
        b"DOTA" => Some(Layout::Pair(Trace::Dot, Aim::Absolute)),
        b"DOTR" => Some(Layout::Pair(Trace::Dot, Aim::Relative)),
        _ => None,
    }
}

// The same of any other name.
fn other_named(name: &[u8]) -> Option<Layout>
    ensures { result ≡ entry other_names name.now }
{
    match name {
        b"TEXT" => Some(Layout::Text(Manner::Onward)),
        b"TEXTR" => Some(Layout::Text(Manner::Restoring)),
        b"TEXTO" => Some(Layout::Text(Manner::Wrapping)),
        b"ESCDEV" => Some(Layout::Escape),
        b"LINMOD" => Some(Layout::Value(Setting::LineMode)),
        b"SETINT" => Some(Layout::Value(Setting::Intensity)),
        b"SUBHED" => Some(Layout::Heading),
        b"INSTS" => Some(Layout::Calling),
        _ => None,
    }
}

// What follows the code of a name, if it is the name of one.
// Tried: one match of all names (of one that it lacks the proof is told the length alone), and a place in a table by code (its `position` did not close).
pub(crate) fn layout_named(name: &[u8]) -> Option<Layout>
    ensures { result ≡ entry names name.now }
{
    bare_named(name)
        .or_else(|| travel_named(name))
        .or_else(|| other_named(name))
}
