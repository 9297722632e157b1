//! The loop over the messages of an editor, from standard input to standard output.

use language_server::Session;
use program_io::{Feed, STANDARD_INPUT, feed_over};
use std::alloc::Global;
use std::io::{Read, Write};
use tool_faults::{Fault, listing_result};

/// Writes what is to be sent.
fn write_out<W: Write>(replies: &[u8], out: &mut W) -> Result<(), Fault<'static>> {
    if replies.is_empty() {
        return Ok(());
    }
    listing_result(out.write_all(replies))?;
    listing_result(out.flush())
}

/// Handles what was read, and reads on where that is no whole message. Returns whether the input has ended.
fn go_on<I: Read + Drop, W: Write>(
    session: &mut Session,
    feed: &mut Feed<'static, I>,
    out: &mut W,
) -> Result<bool, Fault<'static>> {
    let received = session.receive(feed.contents())?;
    write_out(received.replies.as_slice(), out)?;
    if received.size == 0 {
        return Ok(!feed.read_on()?);
    }
    feed.let_go(received.size);
    Ok(false)
}

/// Serves an editor until it sends `exit`, or its input ends. Errors: `NoShutdown` if the editor has not asked to shut down before; others
/// are of input, output and memory.
pub fn serve<I: Read + Drop, W: Write>(
    alloc: Global,
    input: I,
    out: &mut W,
) -> Result<(), Fault<'static>> {
    let mut session = Session::new(alloc);
    let mut feed = feed_over(alloc, STANDARD_INPUT, input);
    for _ in 0..u64::MAX {
        if go_on(&mut session, &mut feed, out)? || session.is_ended() {
            break;
        }
    }
    if session.is_shut() {
        Ok(())
    } else {
        Err(Fault::NoShutdown)
    }
}
