// The lines of one file, each obeyed as soon as it has ended.
use crate::answers::{cannot_read, error};
use crate::session::Session;
use line_tool::lines::Line;
use std::alloc::AllocError;
use std::io::Read;

// All lines of a file, in a session of their own. The last may lack its line feed. Where the file cannot be read on, the line that
// was begun is dropped.
pub fn obey_all<R: Read>(
    rt: &(impl AllocGlobal + Eprint),
    from: &mut R,
    name: &[u8],
) -> Result<(), AllocError> {
    let mut session = Session::new(rt.alloc());
    let mut line = Line::new(rt.alloc());
    let mut buffer = io::large_buffer();
    for _ in 0..u64::MAX {
        match from.read(&mut buffer) {
            Err(why) => {
                cannot_read(rt, name, why);
                return Ok(());
            }
            Ok(0) => break,
            Ok(n) => take(&mut session, &mut line, &buffer[..n])?,
        }
    }
    end_line(&mut session, &mut line)
}

// Text of the file: each line that ends in it is obeyed, and what is left is held.
fn take(session: &mut Session, line: &mut Line, text: &[u8]) -> Result<(), AllocError> {
    let mut parts = text.split(|&byte| byte == b'\n');
    if let Some(first) = parts.next() {
        line.extend(first)?;
    }
    for part in parts {
        end_line(session, line)?;
        line.extend(part)?;
    }
    Ok(())
}

fn end_line(session: &mut Session, line: &mut Line) -> Result<(), AllocError> {
    match line.text() {
        Err(wrong) => error(line.bytes(), wrong),
        Ok(None) => {}
        Ok(Some(text)) => session.obey(text)?,
    }
    line.clear();
    Ok(())
}
