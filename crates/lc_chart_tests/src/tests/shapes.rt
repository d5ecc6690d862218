//! Each shape as its element of SVG, with numbers of any length, and where one of its writes fails.
use super::same;
use lc_chart::shapes;
use lc_chart::shapes::{Paint, Point};
use lc_frame::Channel;
use std::alloc::Global;
use std::io;
use std::io::Write;
use std::process::Abort;
use std::test::Fail;
use test_devices::{Odd, Pipe, PipeWriter, Plan};

const SHAPES: &str = r#"<rect class="room" x="1" y="20" width="18446744073709551615" height="300"/>
<line class="arrow c3" x1="1" y1="20" x2="18446744073709551615" y2="300"/>
<circle class="mark c6" cx="18446744073709551615" cy="300" r="4000"/>
<path class="soft end c0" d="M18446744073709551615 300m-13 0l13 -13l13 13l-13 13z"/>
<text class="" x="1" y="20">some words</text>
"#;

fn draw<W: Write>(out: &mut W) -> io::Result<()> {
    let (at, to) = (Point::new(1, 20), Point::new(u64::MAX, 300));
    shapes::rect(out, Paint::plain("room"), at, to.x, to.y)?;
    shapes::line(out, Paint::of("arrow", Channel::ALL[3]), at, to)?;
    shapes::disc(out, Paint::of("mark", Channel::ALL[6]), to, 4_000)?;
    shapes::diamond(out, Paint::of("soft end", Channel::ALL[0]), to)?;
    shapes::text(out, Paint::plain(""), at, &"some words")
}

#[test]
fn shapes_are_their_elements(rt: HostRuntime) -> Result<(), Fail> {
    let mut plan = Plan::whole();
    plan.most = 1;
    let mut out = PipeWriter::new(plan, Pipe::of(Vec::new(rt.alloc())));
    assert!(&rt; draw(&mut out).is_ok(), "shapes byte by byte");
    same(
        &rt,
        "shapes",
        String::from_utf8(out.pipe.bytes).ok(),
        SHAPES,
    );
    Ok(())
}

// Whether a write of this number was made, which fails and is the last.
fn fails_at(rt: &impl Abort, alloc: Global, call: u64) -> bool {
    let mut out = PipeWriter::new(Plan::odd(Odd::Fails, call), Pipe::of(Vec::new(alloc)));
    let is_drawn = draw(&mut out).is_ok();
    let is_front = SHAPES.as_bytes().starts_with(out.pipe.bytes.as_slice());
    let is_made = out.plan.calls >= call;
    assert!(rt;
        is_front && is_drawn != is_made && out.plan.calls <= call,
        "write {call}"
    );
    is_made
}

#[test]
fn a_failed_write_ends_a_shape(rt: HostRuntime) {
    let failed = (1..200)
        .take_while(|call| fails_at(&rt, rt.alloc(), *call))
        .count();
    assert!(&rt; failed > 40 && failed < 199, "{failed} writes");
}

#[test]
fn a_paint_is_written_as_its_classes(rt: HostRuntime) {
    let paints = (Paint::plain("room"), Paint::of("mark", Channel::ALL[3]));
    let text = format!(in rt.alloc(); "{}, {}", paints.0, paints.1).ok();
    same(&rt, "two paints", text, "room, mark c3");
}
