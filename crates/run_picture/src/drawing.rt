// A picture as the text of an SVG.
use crate::boxes::{Bar, LABEL_HEIGHT, Label, Picture, Role};
use crate::texts::push_escaped;
use frang_base::NoMemory;
use std::alloc::Global;

fn colour(role: Role) -> &'static str {
    match role {
        Role::Lane => "#f1f1f1",
        Role::Up => "#b9dfb7",
        Role::Stalled => "#ffdf8a",
        Role::Dead => "#9a9a9a",
        Role::Recovery => "#a98ad0",
        Role::Done => "#1b7a2f",
        Role::Refused => "#d9760b",
        Role::Failed => "#c2141b",
        Role::Notice => "#222222",
        Role::Struck => "#d01070",
        Role::Ruler => "#dddddd",
        Role::Tick => "#7fb2e5",
        Role::Barrier => "#1f4e9c",
    }
}

fn push_bar(out: &mut String, bar: &Bar) -> Result<(), NoMemory> {
    let (x, y, width, height) = (bar.x, bar.y, bar.width, bar.height);
    let fill = colour(bar.role);
    write!(
        out,
        "<rect x=\"{x}\" y=\"{y}\" width=\"{width}\" height=\"{height}\" fill=\"{fill}\""
    )?;
    match &bar.title {
        Some(title) => {
            out.push_str("><title>")?;
            push_escaped(out, title.as_str())?;
            out.push_str("</title></rect>\n")?;
        }
        None => out.push_str("/>\n")?,
    }
    Ok(())
}

fn push_label(out: &mut String, label: &Label) -> Result<(), NoMemory> {
    let (x, width) = (label.x, label.width);
    let base = label.y.saturating_add(LABEL_HEIGHT - 3);
    let class = if label.struck {
        " class=\"struck\""
    } else {
        ""
    };
    write!(
        out,
        "<text x=\"{x}\" y=\"{base}\" textLength=\"{width}\" lengthAdjust=\"spacingAndGlyphs\"{class}>"
    )?;
    push_escaped(out, label.text.as_str())?;
    out.push_str("</text>\n")?;
    Ok(())
}

/// The text of a picture's SVG. Its one refusal is want of memory.
pub fn svg(alloc: Global, picture: &Picture) -> Result<String, NoMemory> {
    let mut out = String::new(alloc);
    let (width, height) = (picture.width, picture.height);
    write!(
        out,
        "<svg xmlns=\"http://www.w3.org/2000/svg\" width=\"{width}\" height=\"{height}\" "
    )?;
    write!(
        out,
        "viewBox=\"0 0 {width} {height}\" font-family=\"monospace\" font-size=\"10\">\n"
    )?;
    write!(
        out,
        "<rect x=\"0\" y=\"0\" width=\"{width}\" height=\"{height}\" fill=\"#ffffff\"/>\n"
    )?;
    // Words stand above what they cross.
    out.push_str(
        "<style>text{paint-order:stroke;stroke:#ffffff;stroke-width:2px}.struck{text-decoration:line-through}</style>\n",
    )?;
    for bar in &picture.bars {
        push_bar(&mut out, bar)?;
    }
    for label in &picture.labels {
        push_label(&mut out, label)?;
    }
    out.push_str("</svg>\n")?;
    Ok(out)
}
