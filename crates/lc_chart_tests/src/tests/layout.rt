//! Where arrows, bars and labels stand.
use super::{
    CUT, FINISHED, FULL, IDEAS, LEAST, LONGEST, QUARTER, STREAM, THREE_QUARTERS, WIDE, has_lines,
    shown,
};
use std::test::Fail;

// Event n stands at 210 + 44 n, A at 158 and B at 638; a bar that is full has a length of 84.
const IDEAS_LINES: &str = r#"<line class="arrow c1" x1="638" y1="298" x2="158" y2="342"/>
<line class="arrow c1" x1="158" y1="386" x2="638" y2="430"/>
<line class="arrow c1" x1="638" y1="518" x2="158" y2="562"/>
<line class="arrow c1" x1="158" y1="606" x2="638" y2="650"/>
<line class="arrow c1" x1="158" y1="694" x2="638" y2="738"/>
<text class="bad" x="176" y="270">refused 4: the message is longer than the guarantees that are held (held 0)</text>
<rect class="held c1" x="20" y="342" width="84" height="44"/>
<rect class="held c1" x="20" y="386" width="63" height="220"/>
<rect class="held c1" x="20" y="606" width="21" height="220"/>
<rect class="outstanding c1" x="692" y="298" width="84" height="132"/>
<rect class="outstanding c1" x="692" y="430" width="84" height="44"/>
<rect class="buffered c1" x="692" y="430" width="21" height="44"/>
<rect class="outstanding c1" x="692" y="474" width="63" height="176"/>
<rect class="outstanding c1" x="692" y="650" width="21" height="176"/>
<rect class="room" x="692" y="650" width="84" height="176"/>
<text class="asked end c1" x="620" y="466">take 2 bytes</text>
<text class="soft end" x="620" y="798">ended: none will come</text>
9. A: honour on channel 1: absolve 4.
The frame of event 9 arrives at event 10."#;

const CUT_LINES: &str = r#"<line class="arrow c1" x1="638" y1="254" x2="158" y2="386"/>
<line class="arrow c1" x1="158" y1="474" x2="638" y2="562"/>
<line class="arrow c1" x1="158" y1="518" x2="638" y2="650"/>
<line class="flight c1" x1="638" y1="694" x2="278" y2="738"/>
<text class="sum" x="696" y="266">0+5+3</text>
<text class="sum" x="696" y="574">2+3+3</text>
<text class="sum" x="696" y="618">0+3+5</text>
<text class="sum" x="696" y="662">1+2+5</text>
<text class="sum" x="696" y="706">1+3+4</text>
The frame of event 1 arrives at event 4.
The frame of event 11 is in flight at the end."#;

// Where A finishes it holds no more, and where B hears of it nothing is outstanding.
const FINISHED_LINES: &str = r#"<line class="arrow c1" x1="158" y1="342" x2="638" y2="474"/>
<line class="arrow c1" x1="158" y1="386" x2="638" y2="474"/>
<circle class="mark c1" cx="158" cy="386" r="10"/>
<text class="asked c1" x="176" y="378">finish</text>
<text class="bad" x="176" y="446">refused 15: the channel is finished</text>
<rect class="held c1" x="20" y="298" width="84" height="44"/>
<rect class="held c1" x="20" y="342" width="63" height="44"/>
<rect class="room" x="20" y="386" width="84" height="220"/>
<rect class="outstanding c1" x="692" y="254" width="84" height="220"/>
<text class="sum" x="696" y="486">2+0+6</text>
<text class="sum" x="696" y="530">0+0+8</text>
<text class="soft end" x="620" y="578">ended: none will come</text>
4. A: finish on channel 1: accepted.
6. B: deliver 12 bytes: 12 bytes came, whole frames: 2.
The frame of event 4 arrives at event 6."#;

// Three numbers, below each other, that add up to 16,777,216.
const FULL_LINES: &str = r#"<text class="sum" x="696" y="266">0</text>
<text class="sum" x="696" y="278">16777216</text>
<text class="sum" x="696" y="290">0</text>
<text class="sum" x="696" y="398">4</text>
<text class="sum" x="696" y="410">16777212</text>
<text class="sum" x="696" y="422">0</text>
<text class="sum" x="696" y="530">4</text>
<text class="sum" x="696" y="542">0</text>
<text class="sum" x="696" y="554">16777212</text>"#;

// With thirteen columns on each side A stands at 1286 and B at 1766.
const WIDE_LINES: &str = r#"<line class="arrow c0" x1="1286" y1="254" x2="1766" y2="518"/>
<line class="flight c1" x1="1286" y1="298" x2="1646" y2="1134"/>
<line class="flight c3" x1="1766" y1="958" x2="1406" y2="1134"/>"#;

// A picture of no event has a column for bars on each side, and nothing in it.
const EMPTY_LINES: &str =
    r#"<svg xmlns="http://www.w3.org/2000/svg" role="img" aria-labelledby="title desc" viewBox="0 0 796 294" width="796" height="294">
<title id="title">Two peers with receiving rings of 8 bytes: 0 events</title>
<line class="life" x1="158" y1="210" x2="158" y2="254"/>
<line class="life" x1="638" y1="210" x2="638" y2="254"/>
= 0"#;

// B is the client of what A issues: A has the ring, and 84 units are all of it.
const LEAST_LINES: &str =
    r#"<text class="soft" x="20" y="54">Time runs down, event by event. Numbers in a ring: buffered + outstanding + room = 1</text>
<rect class="outstanding c6" x="20" y="254" width="84" height="44"/>
<text class="sum" x="24" y="222">0+0+1</text>
<text class="sum" x="24" y="266">0+1+0</text>
<text class="sum" x="696" y="222">0</text>
<line class="flight c6" x1="158" y1="254" x2="518" y2="298"/>
= 0"#;

const QUARTER_LINES: &str = r#"<rect class="outstanding c4" x="20" y="254" width="21" height="44"/>
<text class="sum" x="24" y="266">0</text>
<text class="sum" x="24" y="278">16384</text>
<text class="sum" x="24" y="290">49152</text>
= 0"#;

const THREE_QUARTERS_LINES: &str = r#"<rect class="held c0" x="20" y="298" width="63" height="44"/>
<rect class="outstanding c0" x="692" y="254" width="63" height="88"/>
<text class="sum" x="24" y="310">12582912</text>
<text class="sum" x="696" y="266">0</text>
<text class="sum" x="696" y="278">12582912</text>
<text class="sum" x="696" y="290">4194304</text>
= 0"#;

// A stream of version One has no greeting: its first frame is at byte 0.
const STREAM_LINES: &str = r#"<title id="title">A stream with 2 whole frames</title>
1. At byte 0: limit receiving to 4611686018427387904 on channel 4.
2. At byte 9: send 1 byte on channel 5.
<line class="life" x1="140" y1="60" x2="140" y2="192"/>
<line class="arrow c4" x1="140" y1="104" x2="460" y2="104"/>
<text class="asked c4" x="158" y="96">limit receiving to 4611686018427387904</text>
<text class="soft" x="480" y="108">AreaOfInterest</text>
<line class="arrow c5" x1="140" y1="148" x2="460" y2="148"/>
<circle class="mark c5" cx="140" cy="148" r="10"/>
<text class="in" x="140" y="152">5</text>
<text class="soft end" x="122" y="152">byte 9</text>
<circle class="wrong" cx="140" cy="192" r="6"/>
<text class="bad" x="158" y="196">F1 in the frame at byte 13: 0x00</text>
lcmux_chart: F1 in the frame at byte 13: 0x00
= 2"#;

#[test]
fn arrows_and_bars_end_where_the_answers_say(rt: HostRuntime) -> Result<(), Fail> {
    for &(command, script, lines) in &[
        ("lcmux_chart 8", IDEAS, IDEAS_LINES),
        ("lcmux_chart 8", CUT, CUT_LINES),
        ("lcmux_chart 8 2", FINISHED, FINISHED_LINES),
        ("lcmux_chart 16777216", FULL, FULL_LINES),
        ("lcmux_chart 16777216", WIDE, WIDE_LINES),
        ("lcmux_chart 8", "", EMPTY_LINES),
        ("lcmux_chart 1", LEAST, LEAST_LINES),
        ("lcmux_chart 65536", QUARTER, QUARTER_LINES),
        ("lcmux_chart 16777216", THREE_QUARTERS, THREE_QUARTERS_LINES),
        ("lcmux_chart frames", STREAM, STREAM_LINES),
    ] {
        let picture = shown(rt.alloc(), command, script.as_bytes()).ok_or("no picture")?;
        has_lines(&rt, picture.as_str(), lines);
    }
    Ok(())
}

// The numbers of a ring that stand on one line, added up.
fn sum(line: &str) -> Option<u64> {
    let mut sum = 0u64;
    for number in words(line)?.split('+') {
        sum = sum.checked_add(number.parse().ok()?)?;
    }
    Some(sum)
}

// The words that stand in an element of text.
fn words(line: &str) -> Option<&str> {
    line.split('>').nth(1)?.split('<').next()
}

// The first ring of the picture whose numbers do not add up to 8.
fn wrong_ring(picture: &str) -> &str {
    for line in picture.split('\n') {
        if line.starts_with("<text class=\"sum\"") && line.contains("+") && sum(line) != Some(8) {
            return line;
        }
    }
    "none"
}

#[test]
fn the_parts_of_a_ring_add_up_to_the_capacity(rt: HostRuntime) -> Result<(), Fail> {
    let picture = shown(rt.alloc(), "lcmux_chart 8", CUT.as_bytes()).ok_or("no picture")?;
    let wrong = wrong_ring(picture.as_str());
    assert!(rt; wrong == "none", "{wrong}");
    Ok(())
}

// A line of a picture, and the size of that picture.
#[derive(Clone, Copy)]
struct Label<'a> {
    line: &'a str,
    width: u64,
    height: u64,
}

impl Label<'_> {
    fn is_inside(self) -> Option<bool> {
        let (x, y) = (number(self.line, " x=")?, number(self.line, " y=")?);
        let length = (words(self.line)?.len() as u64).saturating_mul(tenths(self.line)) / 10;
        let (before, behind) = match anchor_of(self.line) {
            Anchor::Start => (0, length),
            Anchor::Middle => (length / 2, length / 2),
            Anchor::End => (length, 0),
        };
        let fits = before <= x && x.saturating_add(behind) <= self.width;
        Some(fits && 12 <= y && y.saturating_add(4) <= self.height)
    }
}

// Which point of a label stands at its place.
#[derive(Clone, Copy)]
enum Anchor {
    Start,
    Middle,
    End,
}

fn anchor_of(line: &str) -> Anchor {
    if line.contains(" end\"") || line.contains(" end c") {
        Anchor::End
    } else if line.contains(" mid\"") || line.contains("\"in\"") {
        Anchor::Middle
    } else {
        Anchor::Start
    }
}

// The number that an attribute of the line has.
fn number(line: &str, attribute: &str) -> Option<u64> {
    let mut parts = line.split('"');
    while let Some(part) = parts.next() {
        if part.ends_with(attribute) {
            return parts.next()?.parse().ok();
        }
    }
    None
}

// The mean width of a line's letters, in tenths of a unit: six tenths of its size at most.
fn tenths(line: &str) -> u64 {
    if line.contains("title") {
        108
    } else if line.contains("soft") {
        78
    } else if line.contains("bad") || line.contains("sum") {
        72
    } else {
        90
    }
}

// The first label of the picture that is not inside it.
fn first_outside(picture: &str) -> &str {
    let (Some(width), Some(height)) = (number(picture, " width="), number(picture, " height="))
    else {
        return "no size";
    };
    for line in picture.split('\n') {
        if line.starts_with("<text") {
            let label = Label {
                line,
                width,
                height,
            };
            if label.is_inside() != Some(true) {
                return line;
            }
        }
    }
    "none"
}

#[test]
fn no_label_leaves_its_picture(rt: HostRuntime) -> Result<(), Fail> {
    for &(command, input) in &[
        ("lcmux_chart 8", ""),
        ("lcmux_chart 8", IDEAS),
        ("lcmux_chart 8", LONGEST),
        ("lcmux_chart 8 2", FINISHED),
        ("lcmux_chart 16777216", FULL),
        ("lcmux_chart 16777216", WIDE),
        ("lcmux_chart frames", STREAM),
    ] {
        let picture = shown(rt.alloc(), command, input.as_bytes()).ok_or("no picture")?;
        let outside = first_outside(picture.as_str());
        assert!(rt; outside == "none", "{outside}");
    }
    Ok(())
}
