// The writer of a table file from words, and from text to file and back.
#![tactic(auto)]

ghost use Rattle.std.specs.Prelude.{◌≡◌};
ghost use Rattle.model.specs.Writer.{fill_told, write_exported};
ghost use Rattle.model.specs.PlainText.{from_text_exported, to_text_exported};
ghost use Rattle.writecalls.specs.Told.{ToldAs};

use values::{Fault, Writing};

// What a writer says as a number; the buffer is as it left it.
fn told(said: Writing) -> u64
    ensures { ToldAs said result }
{
    match said {
        Err(why) => numbers::refusal_number(why),
        Ok(bytes) => bytes as u64,
    }
}

// Any words, budget and buffer: the rows are looked at before the table, the buffer's length last.
pub fn write_rows(words: &[u32], budget: u64, file: &mut [u8]) -> u64
    ensures { record { number = result; buffer = file.new } ≡ write_exported words.now budget file.old }
{
    told(write_on(words, budget, file))
}

fn write_on(words: &[u32], budget: u64, file: &mut [u8]) -> Writing
    ensures { fill_told file.new result ≡ write_exported words.now budget file.old }
{
    if rows::broken(words.len()) {
        return Err(numbers::refusal_at(Fault::BrokenRows, words.len()));
    }
    let stranger = rows::first_stranger(words);
    if stranger < rows::count(words.len()) {
        return Err(numbers::refusal_at(Fault::StrangeRow, stranger));
    }
    writer::write(rows::table_in(words), budget, file)
}

// Any text and any buffer: the text's form comes first, then the table, then the buffer's length.
pub fn file_from_text(text: &[u8], file: &mut [u8]) -> u64
    ensures { record { number = result; buffer = file.new } ≡ from_text_exported text.now file.old }
{
    told(plaintext::file_of(text, file))
}

pub fn text_from_file(file: &[u8], text: &mut [u8]) -> u64
    ensures { record { number = result; buffer = text.new } ≡ to_text_exported file.now text.old }
{
    told(plaintext::text_of(file, text))
}
