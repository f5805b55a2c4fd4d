// The chunks of a map, with blank ones for what is to come.
ghost use Rattle.std.specs.Prelude.{◌≡◌, ◌+◌, ◌<◌, ◌≤◌, ◌∷◌, [], ◌++◌, length, max, take, drop, slice_index_or, slice_set, IsOk, OnOk, OnErr};
ghost use Rattle.std.specs.List.{insert, remove};
ghost use Rattle.ordered_map.specs.Chunks.{chunk_at, overwritten};

use crate::chunk::{CHUNK, Chunk, Edit, HALF};
use std::alloc::{AllocError, Global};
use std::marker::Model;

/// The chunks of a map, and blank ones for what is to come. Contracts see the chunks, and how many blank ones there are.
#[derive(Drop)]
pub(crate) struct Chunks<K, V> {
    chunks: Vec<Chunk<K, V>>,
    blank: Vec<Chunk<K, V>>,
    alloc: Global,
}

impl<K, V> Model for Chunks<K, V> {
    ghost use Rattle.std.specs.Prelude.{vec_len, vec_capacity};
    ghost use Rattle.ordered_map.specs.Chunks.{Chunked, chunked_code, AreKept};

    ghost Value = { Chunked K V };

    ghost coded = { chunked_code K.code V.code };

    ghost view = { λ c. record { chunks = c.chunks.items; blank = vec_len c.blank } };

    ghost invariant = { λ c. AreKept c.chunks.items c.blank.items (vec_capacity c.chunks) (vec_capacity c.blank) };
}

impl<K: Copy + Drop, V: Drop> Chunks<K, V> {
    /// No chunks. It takes no memory.
    pub(crate) fn new(alloc: Global) -> Self
        ensures chunks { result.chunks ≡ [] }
        ensures blank { result.blank ≡ 0 }
    {
        Chunks {
            chunks: Vec::new(alloc),
            blank: Vec::new(alloc),
            alloc,
        }
    }

    /// The chunks.
    pub(crate) fn all(&self) -> &[Chunk<K, V>]
        ensures { result.now ≡ self.now.chunks }
    {
        &self.chunks
    }

    /// How many blank ones there are.
    pub(crate) fn blank(&self) -> usize
        ensures { result ≡ self.now.blank }
    {
        self.blank.len()
    }

    // Adds a blank chunk.
    fn add_blank(&mut self) -> Result<(), AllocError>
        ensures chunks { self.new.chunks ≡ self.old.chunks }
        ensures ok { OnOk result (self.new.blank ≡ self.old.blank + 1) }
        ensures err { OnErr result (self.new.blank ≡ self.old.blank) }
    {
        let chunk = Chunk::new(self.alloc)?;
        let more = self.blank.len() + 1;
        self.chunks.reserve(more)?;
        self.blank.reserve(self.chunks.len() + 1)?;
        match self.blank.push(chunk) {
            Ok(()) => Ok(()),
            Err(_) => unreachable!(),
        }
    }

    /// Adds blank chunks until there are `n`. Nothing else changes, whatever the answer. It takes no memory where there are as many.
    pub(crate) fn reserve(&mut self, n: usize) -> Result<(), AllocError>
        ensures chunks { self.new.chunks ≡ self.old.chunks }
        ensures ok { OnOk result (n ≤ self.new.blank) }
        ensures sure { n ≤ self.old.blank → IsOk result }
        ensures more { self.old.blank ≤ self.new.blank }
        ensures bound { self.new.blank ≤ max self.old.blank n }
    {
        for _ in self.blank()..n {
            self.add_blank()?;
        }
        Ok(())
    }

    /// Puts the first entry into a blank chunk.
    pub(crate) fn begin(&mut self, key: K, value: V)
        requires none { self.old.chunks ≡ [] }
        requires blank { 0 < self.old.blank }
        ensures chunks { self.new.chunks ≡ ((key, value) ∷ []) ∷ [] }
        ensures blank { self.new.blank + 1 ≡ self.old.blank }
    {
        match self.blank.pop() {
            Some(mut chunk) => {
                chunk.insert(0, key, value);
                match self.chunks.push(chunk) {
                    Ok(()) => {}
                    Err(_) => unreachable!(),
                }
            }
            None => unreachable!(),
        }
    }

    /// Puts an entry in at a place of a chunk, which isn't full.
    pub(crate) fn insert(&mut self, chunk: usize, at: usize, key: K, value: V)
        requires inside { chunk < length self.old.chunks }
        requires place { at ≤ length (chunk_at self.old.chunks chunk) }
        requires room { length (chunk_at self.old.chunks chunk) < CHUNK }
        ensures chunks { self.new.chunks ≡ slice_set self.old.chunks chunk (insert (chunk_at self.old.chunks chunk) at (key, value)) }
        ensures blank { self.new.blank ≡ self.old.blank }
    {
        self.chunks[chunk].insert(at, key, value);
    }

    /// Puts another value in the place of one, and answers that one.
    pub(crate) fn exchange(&mut self, chunk: usize, at: usize, value: V) -> V
        requires inside { chunk < length self.old.chunks }
        requires place { at < length (chunk_at self.old.chunks chunk) }
        ensures chunks { self.new.chunks ≡ slice_set self.old.chunks chunk (overwritten (chunk_at self.old.chunks chunk) at value) }
        ensures blank { self.new.blank ≡ self.old.blank }
        ensures before { (d : K × V) → result ≡ (slice_index_or (chunk_at self.old.chunks chunk) at d).1 }
    {
        self.chunks[chunk].exchange(at, value)
    }

    /// Changes a value where it lies.
    pub(crate) fn change<E: Edit<V>>(&mut self, chunk: usize, at: usize, edit: &E)
        requires inside { chunk < length self.old.chunks }
        requires place { at < length (chunk_at self.old.chunks chunk) }
        ensures chunks { (d : K × V) → self.new.chunks ≡ slice_set self.old.chunks chunk (overwritten (chunk_at self.old.chunks chunk) at (E.edited edit.now (slice_index_or (chunk_at self.old.chunks chunk) at d).1)) }
        ensures blank { self.new.blank ≡ self.old.blank }
    {
        self.chunks[chunk].change(at, edit);
    }

    /// Takes an entry out of a chunk, which stays also where it has no others, and answers its value.
    pub(crate) fn take(&mut self, chunk: usize, at: usize) -> V
        requires inside { chunk < length self.old.chunks }
        requires place { at < length (chunk_at self.old.chunks chunk) }
        ensures chunks { self.new.chunks ≡ slice_set self.old.chunks chunk (remove (chunk_at self.old.chunks chunk) at) }
        ensures blank { self.new.blank ≡ self.old.blank }
        ensures value { (d : K × V) → result ≡ (slice_index_or (chunk_at self.old.chunks chunk) at d).1 }
    {
        self.chunks[chunk].take(at)
    }

    /// A chunk goes, with all its entries, and is a blank one from now on.
    pub(crate) fn discard(&mut self, chunk: usize)
        requires { chunk < length self.old.chunks }
        ensures chunks { self.new.chunks ≡ remove self.old.chunks chunk }
        ensures blank { self.new.blank ≡ self.old.blank + 1 }
    {
        let mut gone = self.chunks.remove(chunk);
        gone.clear();
        match self.blank.push(gone) {
            Ok(()) => {}
            Err(_) => unreachable!(),
        }
    }

    /// Splits a full chunk in two.
    pub(crate) fn split(&mut self, chunk: usize)
        requires inside { chunk < length self.old.chunks }
        requires full { length (chunk_at self.old.chunks chunk) ≡ CHUNK }
        requires blank { 0 < self.old.blank }
        ensures chunks { self.new.chunks ≡ insert (slice_set self.old.chunks chunk (take HALF (chunk_at self.old.chunks chunk))) (chunk + 1) (drop HALF (chunk_at self.old.chunks chunk)) }
        ensures blank { self.new.blank + 1 ≡ self.old.blank }
    {
        match self.blank.pop() {
            Some(mut upper) => {
                self.chunks[chunk].split(&mut upper);
                match self.chunks.insert(chunk + 1, upper) {
                    Ok(()) => {}
                    Err(_) => unreachable!(),
                }
            }
            None => unreachable!(),
        }
    }

    /// Moves all entries of the next chunk to the end of one. The next one is a blank one from now on.
    pub(crate) fn merge(&mut self, chunk: usize)
        requires inside { chunk + 1 < length self.old.chunks }
        requires few { length (chunk_at self.old.chunks chunk) + length (chunk_at self.old.chunks (chunk + 1)) ≤ CHUNK }
        ensures chunks { self.new.chunks ≡ slice_set (remove self.old.chunks (chunk + 1)) chunk (chunk_at self.old.chunks chunk ++ chunk_at self.old.chunks (chunk + 1)) }
        ensures blank { self.new.blank ≡ self.old.blank + 1 }
    {
        let mut upper = self.chunks.remove(chunk + 1);
        self.chunks[chunk].append(&mut upper);
        match self.blank.push(upper) {
            Ok(()) => {}
            Err(_) => unreachable!(),
        }
    }
}
