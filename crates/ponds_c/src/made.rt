// Plans that are made of a plan file or of a text, and their files in a lent buffer: imported, closed, lighter.
ghost use Rattle.std.specs.Prelude.{◌≡◌};
ghost use Rattle.made_files.specs.Made.{import_text, close_file, file_left, filed_answer, LighterWritten};

use plan::MOST_RECORDS;

// Comma-separated text as a plan file: 40 to 43 and the reader's own numbers with the line, 12, or 0 with how many records there are.
#[unsafe(no_mangle)]
pub extern "C" fn ponds_import(text: &[u8], out: &mut [u8]) -> u64
    ensures reply { result ≡ filed_answer (import_text text.now) out.old }
    ensures bytes { out.new ≡ file_left (import_text text.now) out.old }
{
    ponds::ponds_import(text, out)
}

// The file of the plan with every distance as a record: the plan's own refusal with its record, 61, 62, 63, 12, or 0 with how many
// records there are.
#[unsafe(no_mangle)]
pub extern "C" fn ponds_close(file: &[u8], out: &mut [u8]) -> u64
    ensures reply { result ≡ filed_answer (close_file file.now) out.old }
    ensures bytes { out.new ≡ file_left (close_file file.now) out.old }
{
    ponds::ponds_close(file, out)
}

// The file of the lighter plan, and the numbers of the records that went: the plan's own refusal with its record, 13, 60, 12, or 0 with
// how many records are left.
#[unsafe(no_mangle)]
pub extern "C" fn ponds_lighter(file: &[u8], out: &mut [u8], room: &mut [u32; MOST_RECORDS]) -> u64
    ensures { LighterWritten file.now out.old room.old result out.new room.new }
{
    ponds::ponds_lighter(file, out, room)
}
