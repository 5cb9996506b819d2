// Changes what is kept. Nothing fails here.
ghost use Rattle.std.specs.Prelude.{◌≡◌, ◌⊎◌, None};
ghost use Rattle.std.specs.Map.{lookup, remove_entry};
ghost use Rattle.std.specs.Str.{bytes_eq};
ghost use Rattle.lru.specs.LruCache.{promoted};
ghost use Rattle.sm_batch.specs.Steps.{after_look, after_looks, with_kept, IsPutOrNot, ArePutOrNot};
ghost use Rattle.sm_batch.specs.Views.{entries_of, entry_of};

use crate::batch::Kept;
use crate::telling::Step;
use lru::LruCache;

/// Looks all steps' keys up in order: a hit goes first, and what is no hit is dropped.
pub(crate) fn look_all(cache: &mut LruCache<Vec<u8>, Kept>, steps: &[Step])
    ensures entries { entries_of cache.new.entries
        ≡ after_looks steps.now (entries_of cache.old.entries) }
    ensures capacity { cache.new.cap ≡ cache.old.cap }
{
    for step in steps {
        look(cache, step);
    }
}

// Looks one step's key up.
fn look(cache: &mut LruCache<Vec<u8>, Kept>, step: &Step)
    ensures entries { entries_of cache.new.entries
        ≡ after_look step.now (entries_of cache.old.entries) }
    ensures capacity { cache.new.cap ≡ cache.old.cap }
{
    if step.hit {
        put_first(cache, &step.key);
    } else {
        drop_entry(cache, &step.key);
    }
}

// Makes a key the most recently used.
fn put_first(cache: &mut LruCache<Vec<u8>, Kept>, key: &Vec<u8>)
    ensures entries { entries_of cache.new.entries
        ≡ promoted (bytes_eq key.now.items) (entries_of cache.old.entries) }
    ensures capacity { cache.new.cap ≡ cache.old.cap }
{
    cache.promote(key);
}

// Drops what is kept under a key.
fn drop_entry(cache: &mut LruCache<Vec<u8>, Kept>, key: &Vec<u8>)
    ensures entries { entries_of cache.new.entries
        ≡ remove_entry (bytes_eq key.now.items) (entries_of cache.old.entries) }
    ensures capacity { cache.new.cap ≡ cache.old.cap }
{
    cache.pop_entry(key);
}

/// Puts what the steps have in order. What finds no memory is left out.
pub(crate) fn put_all(cache: &mut LruCache<Vec<u8>, Kept>, steps: Vec<Step>)
    ensures entries { ArePutOrNot cache.old.cap steps.items
        (entries_of cache.old.entries) (entries_of cache.new.entries) }
    ensures capacity { cache.new.cap ≡ cache.old.cap }
{
    for step in steps {
        put(cache, step);
    }
}

// Puts what one step has.
fn put(cache: &mut LruCache<Vec<u8>, Kept>, step: Step)
    ensures entries { IsPutOrNot cache.old.cap step
        (entries_of cache.old.entries) (entries_of cache.new.entries) }
    ensures capacity { cache.new.cap ≡ cache.old.cap }
{
    let Step { key, fresh, .. } = step;
    match fresh {
        Some(kept) => put_entry(cache, key, kept),
        None => {}
    }
}

// Puts something under a key, or leaves it out where memory is wanting. Under a key that has
// something no memory is wanted.
fn put_entry(cache: &mut LruCache<Vec<u8>, Kept>, key: Vec<u8>, kept: Kept)
    ensures entries { let before = entries_of cache.old.entries in
        (entries_of cache.new.entries ≡ with_kept cache.old.cap key.items (entry_of kept) before)
        ⊎ ((entries_of cache.new.entries ≡ before)
        × (lookup (bytes_eq key.items) before ≡ None)) }
    ensures capacity { cache.new.cap ≡ cache.old.cap }
{
    match cache.put(key, kept) {
        Ok(_) => {}
        Err(_) => {}
    }
}
