//! Which names of components are shown: those near the board that meet no name shown before.

ghost use Rattle.std.specs.Prelude.{◌≡◌, ◌-ℤ◌, ◌≤◌, ◌^◌, OnOk, []};
ghost use Rattle.std.specs.List.{list_any};
ghost use Rattle.ses_writer.specs.Words.{Appends};
ghost use Rattle.board_picture.specs.Names.{name_box, meets_across, meets, is_between, is_within, is_near};
ghost use Rattle.board_picture.specs.Names.{is_free};
ghost use Rattle.board_picture.specs.Picture.{name_text, names_from};
ghost use Rattle.board_picture.specs.inner.Showing.{shown_name, told_boxes};

use crate::sheet::Sheet;
use crate::words::{Part, put_parts};
use geo_kernel::Point;
use pcb_model::Component;
use std::alloc::{AllocError, Global};

/// Where a name ends, and how wide it is taken to be, in nm.
#[derive(Clone, Copy)]
pub(crate) struct NameBox {
    pub at: Point,
    pub width: u128,
}

fn name_box(s: Sheet, c: &Component) -> NameBox
    requires { s.unit ≤ 2 ^ 59 }
    ensures { result ≡ name_box s c.now }
{
    NameBox {
        at: c.at,
        width: (c.name.len() as u128 + 1) * u128::from(s.unit) * 7 / 20,
    }
}

fn meets_across(a: NameBox, b: NameBox) -> bool
    ensures { result ≡ meets_across a b }
{
    let apart = u128::from(a.at.x.abs_diff(b.at.x));
    let width = if b.at.x <= a.at.x { a.width } else { b.width };
    apart <= width
}

fn meets(s: Sheet, a: NameBox, b: NameBox) -> bool
    ensures { result ≡ meets s a b }
{
    meets_across(a, b) && a.at.y.abs_diff(b.at.y) <= s.unit / 2
}

fn meets_any(s: Sheet, a: NameBox, shown: &[NameBox]) -> bool
    ensures { result ≡ list_any (meets s a) shown.now }
{
    for b in shown {
        if meets(s, a, *b) {
            return true;
        }
    }
    false
}

// How far it is from one place to another.
fn span(from: i64, to: i64) -> i128
    ensures { result ≡ to -ℤ from }
{
    i128::from(to) - i128::from(from)
}

fn is_between(s: Sheet, most: u64, along: i128) -> bool
    ensures { result ≡ is_between s most along }
{
    let unit = i128::from(s.unit);
    0 - unit <= along && along <= i128::from(most) + unit
}

fn is_within(s: Sheet, from: i64, most: u64, to: i64) -> bool
    ensures { result ≡ is_within s from most to }
{
    is_between(s, most, span(from, to))
}

fn is_near(s: Sheet, p: Point) -> bool
    ensures { result ≡ is_near s p }
{
    is_within(s, s.left, s.wide, p.x) && is_within(s, p.y, s.high, s.top)
}

fn is_free(s: Sheet, shown: &[NameBox], c: &Component) -> bool
    requires { s.unit ≤ 2 ^ 59 }
    ensures { result ≡ is_free s shown.now c.now }
{
    is_near(s, c.at) && !meets_any(s, name_box(s, c), shown)
}

#[tactic(auto, unfolding(crate::specs::Picture::name_text))]
fn put_name(out: &mut Vec<u8>, c: &Component) -> Result<(), AllocError>
    ensures { OnOk result (Appends out.old.items out.new.items (name_text c.now)) }
{
    put_parts(
        out,
        &[
            Part::Text(b"<text transform=\"matrix(1 0 0 -1"),
            Part::At(c.at),
            Part::Text(b")\">"),
            Part::Name(c.name.as_slice()),
            Part::Text(b"</text>\n"),
        ],
    )
}

// The name, where it is shown, which is then told.
fn put_shown(
    out: &mut Vec<u8>,
    s: Sheet,
    shown: &mut Vec<NameBox>,
    c: &Component,
) -> Result<(), AllocError>
    requires { s.unit ≤ 2 ^ 59 }
    ensures put { OnOk result (Appends out.old.items out.new.items (shown_name s shown.old.items c.now)) }
    ensures told { OnOk result (shown.new.items ≡ told_boxes s shown.old.items c.now) }
{
    if !is_free(s, shown, c) {
        return Ok(());
    }
    put_name(out, c)?;
    shown.push(name_box(s, c))?;
    Ok(())
}

/// The names that are shown.
pub(crate) fn put_name_texts(
    alloc: Global,
    out: &mut Vec<u8>,
    s: Sheet,
    components: &[Component],
) -> Result<(), AllocError>
    requires { s.unit ≤ 2 ^ 59 }
    ensures { OnOk result (Appends out.old.items out.new.items (names_from s [] components.now)) }
{
    let mut shown = Vec::new(alloc);
    for c in components {
        put_shown(out, s, &mut shown, c)?;
    }
    Ok(())
}
