// Where everything lies.
use crate::boxes::{Bar, LABEL_HEIGHT, Label, Picture, Role, text_width};
use crate::lanes::{BED_HEIGHT, Lane, new_lanes, place_of};
use crate::legend::draw_legend;
use crate::moments::{Band, Mark, Passing};
use crate::spots::{NAME_GAP, Source, Spot, has_gap, spots_of};
use frang_base::{NoMemory, Said, ServerId};
use std::alloc::Global;

// Where the first column begins, and how far the next one is at least and at most.
const LEFT: u32 = 72;

const STEP_LEAST: u64 = 8;

const STEP_MOST: u64 = 24;
// How wide a mark is, and what lies free behind the last column.
const MARK_WIDTH: u32 = 3;

const RIGHT: u32 = 176;
// The least width.
const WIDTH_LEAST: u32 = 720;

// A word below a lane, with its height below the lane's bed.
#[derive(Drop)]
struct Word {
    lane: usize,
    label: Label,
}

// How far apart so many columns are, which fill the least width where they can.
fn step_for(count: usize) -> u32 {
    let width = u64::from(WIDTH_LEAST - LEFT - RIGHT);
    (width / (count as u64).max(1)).clamp(STEP_LEAST, STEP_MOST) as u32
}

fn use_lane(lanes: &mut Vec<Lane>, who: ServerId) {
    if let Some(lane) = lanes.get_mut(place_of(who)) {
        lane.used = true;
    }
}

// Finds out which lanes there are.
fn use_lanes(lanes: &mut Vec<Lane>, spots: &[Spot]) {
    for spot in spots {
        use_lane(lanes, spot.moment.who);
        if let Some(other) = spot.moment.other {
            use_lane(lanes, other);
        }
    }
}

// A word in a row of its lane.
fn placed(lanes: &mut Vec<Lane>, spot: &Spot, text: &String) -> Result<Word, NoMemory> {
    let lane = place_of(spot.moment.who);
    let x = spot.x.saturating_add(MARK_WIDTH + 2);
    let width = text_width(text.as_str());
    let row = match lanes.get_mut(lane) {
        Some(lane) => lane.row_for(x, width)?,
        None => 0,
    };
    let rows = (row as u64).min(10_000) as u32;
    let label = Label {
        x,
        y: rows * LABEL_HEIGHT,
        width,
        text: text.clone()?,
        struck: spot.struck,
    };
    Ok(Word { lane, label })
}

// Gives the words their rows.
fn place_words(
    alloc: Global,
    lanes: &mut Vec<Lane>,
    spots: &[Spot],
) -> Result<Vec<Word>, NoMemory> {
    let mut words = Vec::new(alloc);
    for spot in spots {
        if let Some(text) = &spot.moment.words {
            words.push(placed(lanes, spot, text)?)?;
        }
    }
    Ok(words)
}

// Gives the lanes their tops, from a height on; the height below them.
fn stack_lanes(lanes: &mut Vec<Lane>, from: u32) -> u32 {
    let mut top = from;
    for lane in lanes.iter_mut() {
        if lane.used {
            lane.top = top;
            top = top.saturating_add(lane.height());
        }
    }
    top
}

fn lane_name(alloc: Global, place: usize) -> Result<String, NoMemory> {
    if place == 0 {
        return Ok(String::from_str(alloc, "host")?);
    }
    let number = place - 1;
    Ok(format!(in alloc; "server {number}")?)
}

// Where the names of the lanes stand: at both ends, and in each gap.
fn name_places(alloc: Global, spots: &[Spot], width: u32) -> Result<Vec<u32>, NoMemory> {
    let mut places = Vec::new(alloc);
    places.push(4)?;
    for (i, spot) in spots.iter().enumerate() {
        if has_gap(i) {
            places.push(spot.x.saturating_sub(NAME_GAP - 4))?;
        }
    }
    places.push(width.saturating_sub(64))?;
    Ok(places)
}

// Draws the name of a lane at each of some places.
fn draw_names(
    alloc: Global,
    picture: &mut Picture,
    place: usize,
    y: u32,
    names: &[u32],
) -> Result<(), NoMemory> {
    for x in names {
        picture.push_label(*x, y, lane_name(alloc, place)?)?;
    }
    Ok(())
}

// Draws the beds of the lanes, with their names.
fn draw_beds(
    alloc: Global,
    picture: &mut Picture,
    lanes: &[Lane],
    names: &[u32],
) -> Result<(), NoMemory> {
    let wide = picture.width.saturating_sub(LEFT + 72);
    for (place, lane) in lanes.iter().enumerate() {
        if lane.used {
            picture.push_bar((LEFT, lane.top), (wide, BED_HEIGHT), Role::Lane)?;
            draw_names(alloc, picture, place, lane.top.saturating_add(2), names)?;
        }
    }
    Ok(())
}

fn draw_number(
    alloc: Global,
    picture: &mut Picture,
    (x, y): (u32, u32),
    number: u64,
) -> Result<(), NoMemory> {
    let text = format!(in alloc; "{number}")?;
    picture.push_label(x, y, text)
}

// Draws a ruler at every tenth line, with the line's number above and below.
fn draw_rulers(
    alloc: Global,
    picture: &mut Picture,
    spots: &[Spot],
    (top, bottom): (u32, u32),
) -> Result<(), NoMemory> {
    for (i, spot) in spots.iter().enumerate() {
        let number = i as u64 + 1;
        if number % 10 == 0 {
            let height = bottom.saturating_sub(top);
            picture.push_bar((spot.x, top), (1, height), Role::Ruler)?;
            let above = top.saturating_sub(LABEL_HEIGHT + 2);
            draw_number(alloc, picture, (spot.x, above), number)?;
            draw_number(alloc, picture, (spot.x, bottom.saturating_add(2)), number)?;
        }
    }
    Ok(())
}

// Draws what the host lets pass, over all lanes.
fn draw_passing(
    picture: &mut Picture,
    spots: &[Spot],
    (top, bottom): (u32, u32),
) -> Result<(), NoMemory> {
    let height = bottom.saturating_sub(top);
    for spot in spots {
        match spot.moment.passing {
            Passing::Nothing => {}
            Passing::Ticks => picture.push_bar((spot.x, top), (1, height), Role::Tick)?,
            Passing::Barrier => picture.push_bar((spot.x, top), (2, height), Role::Barrier)?,
        }
    }
    Ok(())
}

fn role_of_band(band: Band) -> Option<Role> {
    match band {
        Band::Off => None,
        Band::Up => Some(Role::Up),
        Band::Stalled => Some(Role::Stalled),
        Band::Dead => Some(Role::Dead),
        Band::Recovery => Some(Role::Recovery),
    }
}

// Draws the band that a lane has had, up to a place.
fn draw_band(picture: &mut Picture, lane: &Lane, to: u32) -> Result<(), NoMemory> {
    if let Some(role) = role_of_band(lane.band) {
        let wide = to.saturating_sub(lane.since);
        let y = lane.top.saturating_add(3);
        picture.push_bar((lane.since, y), (wide, BED_HEIGHT - 6), role)?;
    }
    Ok(())
}

// Ends the band of a lane at a place, where another begins.
fn change_band(
    picture: &mut Picture,
    lanes: &mut Vec<Lane>,
    who: ServerId,
    band: Band,
    at: u32,
) -> Result<(), NoMemory> {
    if let Some(lane) = lanes.get_mut(place_of(who)) {
        draw_band(picture, lane, at)?;
        lane.band = band;
        lane.since = at;
    }
    Ok(())
}

// Draws the bands that end before the last line.
fn draw_ended_bands(
    picture: &mut Picture,
    lanes: &mut Vec<Lane>,
    spots: &[Spot],
) -> Result<(), NoMemory> {
    for spot in spots {
        if let Some(band) = spot.moment.band {
            change_band(picture, lanes, spot.moment.who, band, spot.x)?;
        }
    }
    Ok(())
}

// Draws the bands that go on, up to the end.
fn draw_open_bands(picture: &mut Picture, lanes: &[Lane], end: u32) -> Result<(), NoMemory> {
    for lane in lanes {
        draw_band(picture, lane, end)?;
    }
    Ok(())
}

fn role_of_mark(mark: Mark) -> Role {
    match mark {
        Mark::Done => Role::Done,
        Mark::Refused => Role::Refused,
        Mark::Failed => Role::Failed,
        Mark::Notice => Role::Notice,
    }
}

// The top of a lane.
fn top_of(lanes: &[Lane], who: ServerId) -> u32 {
    match lanes.get(place_of(who)) {
        Some(lane) => lane.top,
        None => 0,
    }
}

// Draws that a server takes part in what happens in another's lane: a line from that one, with a block at its end.
fn draw_tie(picture: &mut Picture, x: u32, from: u32, to: u32) -> Result<(), NoMemory> {
    let top = from.min(to);
    let bottom = from.max(to).saturating_add(BED_HEIGHT);
    picture.push_bar((x, top), (1, bottom.saturating_sub(top)), Role::Recovery)?;
    let block = (x.saturating_sub(2), to.saturating_add(4));
    picture.push_bar(block, (5, BED_HEIGHT - 8), Role::Recovery)
}

// Draws the mark of a line, with the words that tell of it.
fn draw_mark(picture: &mut Picture, spot: &Spot, top: u32) -> Result<(), NoMemory> {
    picture.bars.push(Bar {
        x: spot.x,
        y: top,
        width: MARK_WIDTH,
        height: BED_HEIGHT,
        role: role_of_mark(spot.moment.mark),
        title: Some(spot.title.clone()?),
    })?;
    Ok(())
}

// Strikes out a mark.
fn strike_mark(picture: &mut Picture, x: u32, top: u32) -> Result<(), NoMemory> {
    let place = (x.saturating_sub(2), top.saturating_add(BED_HEIGHT / 2 - 1));
    picture.push_bar(place, (MARK_WIDTH + 4, 2), Role::Struck)
}

// Draws the marks, and what ties two lanes.
fn draw_marks(picture: &mut Picture, lanes: &[Lane], spots: &[Spot]) -> Result<(), NoMemory> {
    for spot in spots {
        let top = top_of(lanes, spot.moment.who);
        if let Some(other) = spot.moment.other {
            draw_tie(picture, spot.x, top, top_of(lanes, other))?;
        }
        draw_mark(picture, spot, top)?;
        if spot.struck {
            strike_mark(picture, spot.x, top)?;
        }
    }
    Ok(())
}

// Draws the words of the lanes.
fn draw_words(picture: &mut Picture, lanes: &[Lane], words: Vec<Word>) -> Result<(), NoMemory> {
    for word in words {
        let Word { lane, mut label } = word;
        if let Some(lane) = lanes.get(lane) {
            label.y = label.y.saturating_add(lane.top).saturating_add(BED_HEIGHT);
        }
        picture.labels.push(label)?;
    }
    Ok(())
}

// Draws what lies below the legend, from a height on, into a picture that has its width.
fn draw(
    alloc: Global,
    picture: &mut Picture,
    lanes: &mut Vec<Lane>,
    spots: &[Spot],
    (top, end): (u32, u32),
) -> Result<(), NoMemory> {
    use_lanes(lanes, spots);
    let words = place_words(alloc, lanes, spots)?;
    let bottom = stack_lanes(lanes, top);
    picture.height = bottom.saturating_add(LABEL_HEIGHT + 8);
    let names = name_places(alloc, spots, picture.width)?;
    draw_beds(alloc, picture, lanes, &names)?;
    draw_rulers(alloc, picture, spots, (top, bottom))?;
    draw_passing(picture, spots, (top, bottom))?;
    draw_ended_bands(picture, lanes, spots)?;
    draw_open_bands(picture, lanes, end)?;
    draw_marks(picture, lanes, spots)?;
    draw_words(picture, lanes, words)
}

/// The picture of said lines. With their script, what it asked is told too, and what recoveries remove is struck out. Its one refusal is want of memory.
pub fn picture(alloc: Global, saids: &[Said], source: Option<Source>) -> Result<Picture, NoMemory> {
    let step = step_for(saids.len());
    let spots = spots_of(alloc, &source, saids, (LEFT, step))?;
    let end = match spots.last() {
        Some(spot) => spot.x.saturating_add(step),
        None => LEFT,
    };
    let mut picture = Picture::new(alloc, end.saturating_add(RIGHT).max(WIDTH_LEAST));
    let top = draw_legend(alloc, &mut picture)?.saturating_add(LABEL_HEIGHT + 4);
    let mut lanes = new_lanes(alloc)?;
    draw(alloc, &mut picture, &mut lanes, &spots, (top, end))?;
    Ok(picture)
}
