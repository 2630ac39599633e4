//! These tests look at what no clause of gap buffers says: that calls succeed where memory is found, that a gap
//! takes no more than two numbers, and that a long run of changes goes as on a plain list.
use shared_rows::GapBuffer;
use std::mem::size_of;
use std::test::Fail;

/// The pseudo-random number that follows another one.
fn next(state: u32) -> u32 {
    state.wrapping_mul(1664525).wrapping_add(1013904223)
}

/// Makes one change on both lists. Of sixteen changes so many as `growing` put an element in.
fn change(
    buffer: &mut GapBuffer<u32>,
    plain: &mut Vec<u32>,
    chance: u32,
    growing: u32,
) -> Result<(), Fail> {
    let len = buffer.len().min(plain.len());
    let at = (chance >> 8) as usize % len.max(1);
    if (chance >> 4) % 16 >= growing {
        if at < len {
            buffer.remove(at);
            plain.remove(at);
        }
        return Ok(());
    }
    buffer.reserve()?;
    if (chance >> 28) % 4 == 0 {
        buffer.push_reserved(chance);
        plain.push(chance)?;
    } else if at <= len {
        buffer.insert_reserved(at, chance);
        plain.insert(at, chance)?;
    }
    Ok(())
}

/// The same close to one place, as where a text is typed.
fn type_at(
    buffer: &mut GapBuffer<u32>,
    plain: &mut Vec<u32>,
    chance: u32,
    place: usize,
) -> Result<(), Fail> {
    let len = buffer.len().min(plain.len());
    if place < len {
        buffer.remove(place);
        plain.remove(place);
    }
    let at = place.min(buffer.len().min(plain.len()));
    buffer.reserve()?;
    buffer.insert_reserved(at, chance);
    plain.insert(at, chance)?;
    Ok(())
}

fn are_same(buffer: &GapBuffer<u32>, plain: &[u32]) -> bool {
    for (at, wanted) in plain.iter().enumerate() {
        if buffer.len() <= at || buffer.get(at) != *wanted {
            return false;
        }
    }
    buffer.len() == plain.len()
        && buffer.is_empty() == plain.is_empty()
        && buffer.first() == plain.first().copied()
        && buffer.last() == plain.last().copied()
}

#[test]
fn long_runs_go_as_on_a_plain_list(rt: HostRuntime) -> Result<(), Fail> {
    let mut buffer: GapBuffer<u32> = GapBuffer::new(rt.alloc());
    let mut plain: Vec<u32> = Vec::new(rt.alloc());
    let mut chance = 7;
    for growing in [15, 8, 12, 4, 9, 1, 13, 6, 2, 0] {
        for step in 0..60 {
            chance = next(chance);
            change(&mut buffer, &mut plain, chance, growing)?;
            assert!(rt; are_same(&buffer, plain.as_slice()));
            type_at(&mut buffer, &mut plain, chance, 3 + step % 5)?;
            assert!(rt; are_same(&buffer, plain.as_slice()));
        }
    }
    Ok(())
}

#[test]
fn elements_are_set_found_and_cleared(rt: HostRuntime) -> Result<(), Fail> {
    let mut buffer: GapBuffer<u32> = GapBuffer::new(rt.alloc());
    for value in 0..9 {
        buffer.reserve()?;
        buffer.push_reserved(value);
    }
    if buffer.len() == 9 {
        buffer.remove(4);
        buffer.set(4, 4);
    }
    for (bound, wanted) in [(0, 0), (3, 3), (5, 5), (6, 5), (7, 6), (99, 8)] {
        assert!(rt; buffer.partition_point(|element| *element < bound) == wanted);
    }
    buffer.clear();
    assert!(rt; buffer.is_empty() && buffer.first().is_none() && buffer.last().is_none());
    Ok(())
}

#[test]
fn gaps_are_two_numbers(rt: HostRuntime) {
    assert!(rt; size_of::<GapBuffer<u32>>() == size_of::<Vec<u32>>() + 8);
}
