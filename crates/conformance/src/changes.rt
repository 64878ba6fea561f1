// Type 101: some words of the present directory changed.
use cases::input::{CaseFile, word_at};
use cases::{Stop, Why};
use std::io::Read;

// So many pairs of a place and the word that it gets.
pub(crate) fn change_words<R: Read>(
    file: &mut CaseFile<R>,
    d: &mut [u16],
    count: u16,
) -> Result<(), Stop> {
    for _ in 0..count {
        let mut pair = [0u8; 4];
        file.read(&mut pair)?;
        let place = word_at(&pair, 0);
        let Some(word) = d.get_mut(place as usize) else {
            return Err(file.refused(Why::Place, place as u32, 4));
        };
        *word = word_at(&pair, 2);
    }
    Ok(())
}
