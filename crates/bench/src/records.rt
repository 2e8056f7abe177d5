// Records changed by one number.
use volatile::Record;

// The record with one of its numbers changed: 0 to 15 its rows, 16 on, 17 starter, 18 members, 19 acknowledged.
pub fn changed(old: Record, place: usize, number: u16) -> Record {
    let mut next = old;
    match place {
        0..=15 => next.rows[place] = number,
        16 => next.on = number == 1,
        17 => next.commit.starter = (number % 256) as u8,
        18 => next.commit.members = number,
        19 => next.commit.acknowledged = number,
        _ => {}
    }
    next
}
