// The card's settings as the closed sheet tells them.
use crate::desk::Desk;
use crate::words::NameText;
use std::io;

pub(crate) fn show(rt: &impl Print, desk: &Desk) -> io::Result<()> {
    println!(rt; "\nThe draft is closed. The sheet has these settings:")?;
    let sheet = &desk.sheet;
    for number in 0..sheet.settings() {
        if let (Some(name), Some(last)) = (sheet.name(number), sheet.last(number)) {
            let name = NameText(name);
            println!(rt; "  setting {number}, \"{name}\": last position {last}")?;
        }
    }
    Ok(())
}
