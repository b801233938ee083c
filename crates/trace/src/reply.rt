//! Replies to records.

ghost use Rattle.std.specs.Prelude.{◌≡◌, ◌<◌, ◌≤◌, ◌++◌, ◌∷◌, [], true, false, codes, drop, is_some, nat_lt, length, IfOk, IfSome, OnErr, OnOk, string_bytes};
ghost use Rattle.std.specs.Fmt.{decimal};
ghost use Rattle.model.specs.Definitions.Calls.{accessed, sent};
ghost use Rattle.model.specs.Definitions.Text.{reply_line, reply_text, refusal_name, counts_text, words_text, clear_word, hex_digits, hex_code, line_feed};
ghost use Rattle.mapdb.specs.Meaning.{counts_of};
ghost use Rattle.trace.specs.Meaning.{have_one_digit, reply_of, refusal_of};

use fpage::{Rights, with_status};
use itoa::{Buffer, write_digits};
use mapdb::{Refusal, Reply, SendReply};
use space::NoMemory;
use std::alloc::{AllocError, Global};

/// The word of the complete space, without rights.
const COMPLETE_SPACE: u32 = 0x10;

fn refusal_name(refusal: Refusal) -> &'static str
    ensures { result.now ≡ refusal_name (refusal_of refusal) }
{
    match refusal {
        Refusal::BadSize => "BadSize",
        Refusal::Misaligned => "Misaligned",
        Refusal::OutOfSpace => "OutOfSpace",
        Refusal::NotAnItem => "NotAnItem",
        Refusal::BadControl => "BadControl",
        Refusal::NoSuchSpace => "NoSuchSpace",
        Refusal::SameSpace => "SameSpace",
        Refusal::NoWindow => "NoWindow",
        Refusal::BadRecord => "BadRecord",
    }
}

/// Appends a number in decimal digits.
fn push_number(text: &mut String, number: u128) -> Result<(), AllocError>
    ensures { OnOk result (string_bytes text.new ≡ string_bytes text.old ++ decimal number) }
{
    let mut digits = Buffer::new();
    text.push_str(digits.format(number))
}

/// Appends a count behind its name.
fn push_count(text: &mut String, name: &str, count: u128) -> Result<(), AllocError>
    ensures { OnOk result (string_bytes text.new ≡ string_bytes text.old ++ name.now ++ decimal count) }
{
    text.push_str(name)?;
    push_number(text, count)
}

/// Appends the six counts of a send, each behind its name.
fn push_counts(text: &mut String, counts: &SendReply) -> Result<(), AllocError>
    ensures { OnOk result (string_bytes text.new ≡ string_bytes text.old ++ counts_text (counts_of counts.now)) }
{
    push_count(text, "absent=", counts.absent)?;
    push_count(text, " norights=", counts.norights)?;
    push_count(text, " origin=", counts.origin)?;
    push_count(text, " lost=", counts.lost)?;
    push_count(text, " extended=", counts.extended)?;
    push_count(text, " linked=", counts.linked)
}

/// Returns the hexadecimal digit of a number, in lower case.
fn hex_code(digit: u8) -> char
    requires { digit < 16 }
    ensures { result ≡ hex_code digit }
{
    char::from(if digit < 10 {
        b'0' + digit
    } else {
        b'a' - 10 + digit
    })
}

/// Appends a byte as 2 hexadecimal digits.
fn push_byte(text: &mut String, byte: u8) -> Result<(), AllocError>
    ensures { OnOk result (string_bytes text.new ≡ string_bytes text.old ++ hex_digits 2 byte) }
{
    text.push(hex_code(byte / 16))?;
    text.push(hex_code(byte % 16))
}

/// Appends a word as 8 hexadecimal digits.
fn push_word(text: &mut String, word: u32) -> Result<(), AllocError>
    ensures { OnOk result (string_bytes text.new ≡ string_bytes text.old ++ hex_digits 8 word) }
{
    let [first, second, third, fourth] = word.to_be_bytes();
    push_byte(text, first)?;
    push_byte(text, second)?;
    push_byte(text, third)?;
    push_byte(text, fourth)
}

/// Appends words, each behind a space.
fn push_words(text: &mut String, words: &[u32]) -> Result<(), AllocError>
    ensures { OnOk result (string_bytes text.new ≡ string_bytes text.old ++ words_text words.now) }
{
    for word in words {
        text.push_str(" ")?;
        push_word(text, *word)?;
    }
    Ok(())
}

/// Appends the word of a complete space whose pages have this status.
fn push_status(text: &mut String, status: Rights) -> Result<(), AllocError>
    ensures { OnOk result (string_bytes text.new ≡ string_bytes text.old ++ hex_digits 8 (clear_word status)) }
{
    push_word(text, with_status(COMPLETE_SPACE, status))
}

/// Appends a reply without its number.
fn push_answer(text: &mut String, reply: &Reply) -> Result<(), AllocError>
    ensures { OnOk result (string_bytes text.new ≡ string_bytes text.old ++ reply_text (reply_of reply.now)) }
{
    match reply {
        Reply::Sent(counts) => {
            text.push_str("send ")?;
            push_counts(text, counts)
        }
        Reply::Accessed(true) => text.push_str("access ok"),
        Reply::Accessed(false) => text.push_str("access fault"),
        Reply::Unmapped(words) => {
            text.push_str("unmap")?;
            push_words(text, words)
        }
        Reply::Cleared(status) => {
            text.push_str("clear ")?;
            push_status(text, *status)
        }
        Reply::Refused(refusal) => {
            text.push_str("refused ")?;
            text.push_str(refusal_name(*refusal))
        }
    }
}

/// Appends the line of a reply to a text: the number of the record, a space, the reply, a line feed.
///
/// If memory runs out, nothing is known of the text.
pub fn push_reply(text: &mut String, number: u64, reply: &Reply) -> Result<(), NoMemory>
    ensures { OnOk result (string_bytes text.new ≡ string_bytes text.old ++ reply_line number (reply_of reply.now)) }
{
    push_number(text, u128::from(number))?;
    text.push_str(" ")?;
    push_answer(text, reply)?;
    text.push_str("\n")?;
    Ok(())
}

/// How many digits the number of a record has at most.
const MOST_DIGITS: usize = 20;

/// Appends a number, and behind it what stands behind the first 20 bytes of a line, whose place its digits take.
fn push_numbered(text: &mut Vec<u8>, number: u64, line: &mut [u8]) -> Result<(), NoMemory>
    requires { 20 ≤ length line.old }
    ensures ok { OnOk result (text.new.items ≡ text.old.items ++ decimal number ++ drop 20 line.old) }
    ensures err { OnErr result (text.new.items ≡ text.old.items) }
{
    let start = write_digits(number, line, MOST_DIGITS);
    text.extend_from_slice(&line[start..])?;
    Ok(())
}

/// Appends the line of the reply to an access, as `push_reply` does. If memory runs out, the text stays as it was.
pub fn push_access(text: &mut Vec<u8>, number: u64, made: bool) -> Result<(), NoMemory>
    ensures ok { OnOk result (text.new.items ≡ text.old.items ++ reply_line number (accessed made)) }
    ensures err { OnErr result (text.new.items ≡ text.old.items) }
{
    match made {
        true => {
            let mut line = *b"00000000000000000000 access ok\n";
            push_numbered(text, number, &mut line)
        }
        false => {
            let mut line = *b"00000000000000000000 access fault\n";
            push_numbered(text, number, &mut line)
        }
    }
}

/// The digit of a count below ten.
fn digit(count: u128) -> Option<u8>
    ensures digit { IfSome result (λ code. decimal count ≡ code ∷ []) }
    ensures small { is_some result ≡ nat_lt count 10 }
{
    if count < 10 {
        Some(b'0' + count as u8)
    } else {
        None
    }
}

/// The line of the reply to a send, if each of its counts has one digit. In place of its number stand 20 bytes.
fn sent_line(counts: &SendReply) -> Option<[u8; 82]>
    ensures small { is_some result ≡ have_one_digit (counts_of counts.now) }
    ensures line { IfSome result (λ line. drop 20 line ≡ codes " " ++ reply_text (sent (counts_of counts.now)) ++ line_feed) }
{
    let mut line =
        *b"00000000000000000000 send absent=0 norights=0 origin=0 lost=0 extended=0 linked=0\n";
    line[33] = digit(counts.absent)?;
    line[44] = digit(counts.norights)?;
    line[53] = digit(counts.origin)?;
    line[60] = digit(counts.lost)?;
    line[71] = digit(counts.extended)?;
    line[80] = digit(counts.linked)?;
    Some(line)
}

/// Appends the line of the reply to a send, as `push_reply` does, if each of its counts has one digit, and returns whether
/// that is so. If it is not, or memory runs out, the text stays as it was.
pub fn push_sent(text: &mut Vec<u8>, number: u64, counts: &SendReply) -> Result<bool, NoMemory>
    ensures ok { IfOk result (λ pushed. pushed ≡ true → text.new.items ≡ text.old.items ++ reply_line number (sent (counts_of counts.now))) }
    ensures small { IfOk result (λ pushed. pushed ≡ have_one_digit (counts_of counts.now)) }
    ensures none { IfOk result (λ pushed. pushed ≡ false → text.new.items ≡ text.old.items) }
    ensures err { OnErr result (text.new.items ≡ text.old.items) }
{
    let Some(mut line) = sent_line(counts) else {
        return Ok(false);
    };
    push_numbered(text, number, &mut line)?;
    Ok(true)
}

/// Returns the line of a reply: the number of the record, a space, the reply, a line feed.
pub fn reply_text(alloc: Global, number: u64, reply: &Reply) -> Result<Vec<u8>, NoMemory>
    ensures { IfOk result (λ text. text.items ≡ reply_line number (reply_of reply.now)) }
{
    let mut text = String::new(alloc);
    push_reply(&mut text, number, reply)?;
    Ok(text.into_bytes())
}
