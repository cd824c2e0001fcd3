// The graph of a case, as its line gives it or made by its shape.
use casetext::cursor::Cursor;
use graph::lists::Graph;

// Where the offsets and targets of a graph have room.
#[derive(Drop)]
pub struct Room<'r> {
    pub offsets: &'r mut [u32],
    pub targets: &'r mut [u32],
}

// The length of the list of v in the path of so many vertices.
fn path_degree(v: usize, vertices: usize) -> u32 {
    if vertices < 2 {
        0
    } else if v == 0 || v == vertices - 1 {
        1
    } else {
        2
    }
}

// Writes the offsets of the path of so many vertices.
fn path_offsets(offsets: &mut [u32], vertices: usize) {
    let mut end: u32 = 0;
    for (v, offset) in offsets.iter_mut().enumerate() {
        *offset = end;
        end = end.saturating_add(path_degree(v, vertices));
    }
}

// Writes the targets of a path: 1; 0, 2; 1, 3; and so on.
fn path_targets(targets: &mut [u32]) {
    let mut next: u32 = 1;
    let mut before: u32 = 0;
    for target in targets {
        *target = next;
        (next, before) = (before, next.saturating_add(1));
    }
}

// Writes offsets by which the first vertex has a list of the first `end` targets, and no other has any.
fn one_list(offsets: &mut [u32], end: u32) {
    offsets.fill(end);
    if let Some(first) = offsets.first_mut() {
        *first = 0;
    }
}

// Reads a graph whose offsets and targets stand next.
fn given<'r>(cursor: &mut Cursor, room: Room<'r>) -> Option<Graph<'r, 'r>> {
    let offsets = cursor.numbers(room.offsets);
    cursor.words(b" targets")?;
    let targets = cursor.numbers(room.targets);
    Some(Graph { offsets, targets })
}

// Makes the path of so many vertices.
fn path<'r>(vertices: usize, entries: usize, room: Room<'r>) -> Option<Graph<'r, 'r>> {
    let offsets = room.offsets.get_mut(..=vertices)?;
    let targets = room.targets.get_mut(..entries)?;
    path_offsets(offsets, vertices);
    path_targets(targets);
    Some(Graph { offsets, targets })
}

// Makes the graph of so many vertices with one list, which has the target so many times.
fn list<'r>(vertices: usize, target: u32, times: u32, room: Room<'r>) -> Option<Graph<'r, 'r>> {
    let offsets = room.offsets.get_mut(..=vertices)?;
    let targets = room.targets.get_mut(..times as usize)?;
    one_list(offsets, times);
    targets.fill(target);
    Some(Graph { offsets, targets })
}

// Reads or makes the graph that stands next. None where none does, or the room is too small for it.
pub fn read_graph<'r>(cursor: &mut Cursor, room: Room<'r>) -> Option<Graph<'r, 'r>> {
    if cursor.words(b"offsets").is_some() {
        return given(cursor, room);
    }
    if let Some(numbers) = cursor.form::<2>(b"path # targets #") {
        let [vertices, entries] = numbers;
        return path(vertices as usize, entries as usize, room);
    }
    let [vertices, target, times] = cursor.form::<3>(b"vertices # list # times #")?;
    list(vertices as usize, target, times, room)
}
