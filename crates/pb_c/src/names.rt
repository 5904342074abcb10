//! The names of an instance in one text, for programs in C.

ghost use Rattle.std.specs.Prelude.{◌≡◌, ◌≢◌, ◌-◌, ◌^◌, length, min};
ghost use Rattle.pb_tool.specs.contract.Pieces.{joined};
ghost use Rattle.pb_c.specs.Names.{AnswersNames, AreStarts, CopiesNames};

use crate::instance_handle::InstanceHandle;
use crate::options::WRONG_WORDS;
use pb_normal::Names;
use std::alloc::Global;

/// Copies all names: their bytes, one name after another, and where each begins. The arrays have to
/// have as many elements as the names have bytes, and as there are names. Otherwise the status is
/// 2, and nothing is written.
#[unsafe(no_mangle)]
pub extern "C" fn pb_instance_names(
    alloc: Global,
    instance: &mut InstanceHandle,
    bytes: &mut [u8],
    starts: &mut [u64],
) -> u8
    ensures kept { instance.new.value ≡ instance.old.value }
    ensures names { AnswersNames instance.old.value result bytes.new starts.new }
    ensures unwritten { result ≢ 0 → (bytes.new ≡ bytes.old) × (starts.new ≡ starts.old) }
{
    let flat = match instance.take(alloc) {
        Some(flat) => flat,
        None => return WRONG_WORDS,
    };
    let status = copy_names(&flat.named.names, bytes, starts);
    *instance = InstanceHandle::of(flat);
    status
}

fn copy_names(names: &Names, bytes: &mut [u8], starts: &mut [u64]) -> u8
    ensures copies { CopiesNames names.now result bytes.new starts.new }
    ensures unwritten { result ≢ 0 → (bytes.new ≡ bytes.old) × (starts.new ≡ starts.old) }
{
    if starts.len() != names.len() || bytes.len() != bytes_in(names) {
        return WRONG_WORDS;
    }
    join_names(names, bytes, starts);
    0
}

/// One name after another.
fn join_names(names: &Names, bytes: &mut [u8], starts: &mut [u64])
    requires bytes { length bytes.old ≡ length (joined names.now) }
    requires starts { length starts.old ≡ length names.now }
    ensures bytes { bytes.new ≡ joined names.now }
    ensures starts { AreStarts names.now starts.new }
{
    let mut past = 0;
    'names: for number in 0..names.len() {
        match names.name_of(number) {
            Some(name) => {
                let text = name.as_bytes();
                bytes[past..past + text.len()].copy_from_slice(text);
                starts[number] = past as u64;
                past += text.len();
            }
            None => unreachable!(),
        }
    }
}

/// How many bytes the names have, if a machine word has the number.
pub(crate) fn bytes_in(names: &Names) -> usize
    ensures { result ≡ min (length (joined names.now)) (2 ^ 64 - 1) }
{
    let mut count: usize = 0;
    'names: for number in 0..names.len() {
        match names.name_of(number) {
            Some(name) => count = count.saturating_add(name.len()),
            None => unreachable!(),
        }
    }
    count
}
