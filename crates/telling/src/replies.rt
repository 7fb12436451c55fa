// The line for an answer of the library.
ghost use Rattle.std.specs.Prelude.{◌≡◌};
ghost use Rattle.telling.specs.Forms.{Says};
ghost use Rattle.telling.specs.Refusals.{refused_words};
ghost use Rattle.telling.specs.Replies.{packets_line, stopped_line, decoded_line, encoded_line, version_line, frame_line};

use crate::form::fill_in;
use crate::refusals::{tell_refused, tell_stopped};
use refusal::Refusal;
use results::Decoded;

// Puts the line for packets that were read. Their dirty padding is told where there is any, so that the line of a clean packet is as it
// was.
fn tell_packets(packets: usize, count: usize, left: usize, dirty: usize, out: &mut [u8]) -> usize
    ensures { Says (packets_line packets count left dirty) out.new result }
{
    if dirty == 0 {
        return fill_in(
            b"packets: %, records: %, bytes left: %\n",
            &[packets as u64, count as u64, left as u64],
            b"",
            out,
        );
    }
    fill_in(
        b"packets: %, records: %, bytes left: %, dirty padding bytes: %\n",
        &[packets as u64, count as u64, left as u64, dirty as u64],
        b"",
        out,
    )
}

// Puts the line for packets that were read before a refused frame, told in the same way.
fn tell_before(
    packets: usize,
    count: usize,
    left: usize,
    dirty: usize,
    refusal: Refusal,
    frame: usize,
    out: &mut [u8],
) -> usize
    ensures { Says (stopped_line packets count left dirty (refused_words refusal) frame) out.new result }
{
    if dirty == 0 {
        return tell_stopped(
            b"stopped: packets: %, records: %, bytes left: %, ~, frame at offset %\n",
            &[packets as u64, count as u64, left as u64, frame as u64],
            refusal,
            out,
        );
    }
    tell_stopped(
        b"stopped: packets: %, records: %, bytes left: %, dirty padding bytes: %, ~, frame at offset %\n",
        &[
            packets as u64,
            count as u64,
            left as u64,
            dirty as u64,
            frame as u64,
        ],
        refusal,
        out,
    )
}

// Puts the line for a decoder's answer at the front of `out`, and answers how long it is. What has no room is left out.
//
// Ruled out: the count of records in the place of that of packets; dirty padding left out; a list that stopped told as one that did not.
pub fn tell_decoded(
    packets: usize,
    bytes: usize,
    answer: Result<Decoded, Refusal>,
    out: &mut [u8],
) -> usize
    ensures { Says (decoded_line packets bytes answer) out.new result }
{
    match answer {
        Ok(Decoded::Packets { count, left, dirty }) => tell_packets(
            packets, count, left, dirty, out,
        ),
        Ok(Decoded::Waiting) => fill_in(
            b"waiting: % bytes, nothing read\n",
            &[bytes as u64],
            b"",
            out,
        ),
        Err(refusal) => tell_refused(refusal, out),
        Ok(
            Decoded::Stopped {
                count,
                left,
                dirty,
                refusal,
                frame,
            },
        ) => tell_before(packets, count, left, dirty, refusal, frame, out),
    }
}

// The same for an encoder's answer.
//
// Ruled out: another number of bytes; a refusal told as bytes that were written.
pub fn tell_encoded(answer: Result<usize, Refusal>, out: &mut [u8]) -> usize
    ensures { Says (encoded_line answer) out.new result }
{
    match answer {
        Ok(n) => fill_in(b"written: % bytes\n", &[n as u64], b"", out),
        Err(refusal) => tell_refused(refusal, out),
    }
}

// The same for the version.
//
// Ruled out: the version without the program's name; the patch in the place of the minor.
pub fn tell_version(major: u64, minor: u64, patch: u64, out: &mut [u8]) -> usize
    ensures { Says (version_line major minor patch) out.new result }
{
    fill_in(b"osc %.%.%\n", &[major, minor, patch], b"", out)
}

// The same for a frame of a recording: the words for its packet, where the frame begins and how long the packet is.
//
// Ruled out: the length of the packet in the place of the frame's offset; the words for the packet alone.
pub fn tell_frame(at: u64, size: usize, words: &[u8], out: &mut [u8]) -> usize
    ensures { Says (frame_line at size words.now) out.new result }
{
    fill_in(
        b"~, frame at byte %, packet of % bytes\n",
        &[at, size as u64],
        words,
        out,
    )
}
