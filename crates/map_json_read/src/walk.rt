// The members of a map's text, in one walk.
ghost use Rattle.std.specs.Prelude.{◌≡◌, ◌&&◌, [], eqb, length, drop, get_or, MatchOption};
ghost use Rattle.spec_text.specs.utf8.Utf8.{utf8};
ghost use Rattle.spec_json.specs.json.Space.{spaces};
ghost use Rattle.spec_json.specs.json.Value.{value_width};
ghost use Rattle.spec_json.specs.json.Walk.{item_width, row_of};
ghost use Rattle.spec_json.specs.json.Member.{members_of};
ghost use Rattle.map_json_segments.specs.Slots.{gathered};
ghost use Rattle.map_json_read.specs.Slots.{head_number, none_walked, walked_after};
ghost use Rattle.map_json_read.specs.Walk.{no_walk, kept_span, walk_by, walked_of, HeadIn, WalkIn};
ghost use Rattle.map_json_read.specs.Steps.{object_of};

use crate::fields::{Head, HeadSlots, head_named, heads_after, no_heads};

// Where a value stands in a row.
#[derive(Clone, Copy, Debug, PartialEq, Eq)]
pub struct Span {
    pub at: usize,
    pub len: usize,
}

// What the members so far say: the slots, where the path's value and the list stand in the row, and how wide the members are.
#[derive(Clone, Copy)]
pub struct Walk {
    pub heads: HeadSlots,
    pub path: Span,
    pub list: Span,
    pub whole: usize,
}

fn no_walk() -> Walk
    ensures { result ≡ no_walk }
{
    let none = Span { at: 0, len: 0 };
    Walk {
        heads: no_heads(),
        path: none,
        list: none,
        whole: 0,
    }
}

// Where the value of a field stands: the first member's, and nowhere behind a second.
fn kept(seen: bool, span: Span) -> Span
    ensures { result ≡ kept_span seen span }
{
    if seen { Span { at: 0, len: 0 } } else { span }
}

// The walk behind a member of the width `whole` whose key names the field `n`, and whose value `v` stands at `span`.
fn walk_after(x: Walk, n: Option<Head>, v: &[u8], span: Span, whole: usize) -> Walk
    ensures { result ≡ walk_by (head_number n) x v.now span whole }
{
    let heads = heads_after(x.heads, n, v);
    let Some(h) = n else {
        return Walk { heads, whole, ..x };
    };
    match h {
        Head::Input => Walk {
            heads,
            path: kept(x.heads.path, span),
            whole,
            ..x
        },
        Head::Segments => Walk {
            heads,
            list: kept(x.heads.list, span),
            whole,
            ..x
        },
        _ => Walk { heads, whole, ..x },
    }
}

// The walk behind the member of the row `s` at the place `at`.
fn head_in(x: Walk, s: &[u8], at: usize) -> Option<Walk>
    ensures { MatchOption result (item_width 0x7B (value_width 10) (drop at s.now) ≡ 0) (λ r. HeadIn x s.now at r) }
{
    let t = base::rest(s, at);
    let p = json_values::item_parts(10, b'{', t);
    if p.whole == 0 {
        return None;
    }
    let v = base::front(base::rest(t, p.lead), p.width);
    let n = head_named(base::rest(t, json_values::spaces(t)));
    let span = Span {
        at: at + p.lead,
        len: p.width,
    };
    Some(walk_after(x, n, v, span, p.whole))
}

// The walk behind all members of the row `s`, with the byte that closes it.
// Kept: no iterator is plainer than the place `at` here, since each step is as wide as its member.
fn walk_in(s: &[u8]) -> Option<Walk>
    ensures { MatchOption result (row_of 10 0x7B s.now ≡ 0) (λ r. WalkIn s.now r) }
{
    let mut x = no_walk();
    let mut at = 0;
    while at < s.len() {
        let m = head_in(x, s, at)?;
        match base::get_or(base::rest(s, at), m.whole, 0) {
            b',' => at = at + m.whole + 1,
            b'}' => {
                return Some(Walk {
                    whole: at + m.whole + 1,
                    ..m
                });
            }
            _ => return None,
        }
        x = m;
    }
    None
}

// Whether a text is UTF-8 and begins with an object, behind white space.
fn begins(text: &[u8]) -> bool
    ensures { result ≡ (utf8 text.now && eqb (get_or (drop (spaces text.now) text.now) 0 0) 0x7B) }
{
    utf8::is_utf8(text) && base::get_or(base::rest(text, json_values::spaces(text)), 0, 0) == b'{'
}

// Whether nothing but white space stands from the place `at` on.
fn ends(s: &[u8], at: usize) -> bool
    ensures { result ≡ eqb (spaces (drop at s.now)) (length (drop at s.now)) }
{
    let u = base::rest(s, at);
    json_values::spaces(u) == u.len()
}

// The walk of a text that is an object with nothing but white space around it; `s` is its row. Another text has no members.
pub fn walk_text(text: &[u8], s: &[u8]) -> Option<Walk>
    requires { s.now ≡ drop 1 (drop (spaces text.now) text.now) }
    ensures { MatchOption result (members_of 10 (object_of text.now) ≡ []) (λ x. walked_of s.now x ≡ gathered walked_after none_walked (members_of 10 (object_of text.now))) }
{
    if !begins(text) {
        return None;
    }
    let x = walk_in(s)?;
    if ends(s, x.whole) { Some(x) } else { None }
}
