// Glyph names: the glyphs of a font by their names, and the names that are asked for.
ghost use Rattle.std.specs.Prelude.{[], ◌∷◌};
ghost use Rattle.std.specs.Cmp.Lexicographic.{bytes_decides};
ghost use Rattle.std.proofs.Common.{ap};

use crate::bytes::{Span, is_space};
use indexmap::{IndexMap, IndexSet};
use std::alloc::{AllocError, Global};
use std::hash::{BuildHasher, DefaultHasher, Hash, Hasher};
use std::random::RandomSource;

// A glyph's name, all of whose bytes are hashed at once.
#[derive(Clone, Copy, PartialEq, Eq)]
pub(crate) struct Name<'a> {
    pub bytes: &'a [u8],
}

impl Hash for Name<'_> {
    ghost hash_input = { λ n. n.bytes.now ∷ [] };

    ghost respects_eq = { λ x y h. ap (λ b. b ∷ []) ((bytes_decides x.bytes.now y.bytes.now).0 h) };

    fn hash<H: Hasher>(&self, state: &mut H) {
        state.write(self.bytes);
    }
}

// Hashes names by a key that the maker of a font cannot know, who then cannot choose names that collide. SipHash:
// FoldHasher, whatever its seed, has one number for all names that end with certain eight bytes.
#[derive(Clone, Copy)]
pub(crate) struct KeyedHash {
    keyed: DefaultHasher,
}

impl KeyedHash {
    // A key from the system's random source; a fixed one where it gives none.
    pub(crate) fn new(rt: &HostRuntime) -> KeyedHash {
        let mut key = [0; 16];
        let _ = rt.fill_bytes(&mut key);
        let mut keyed = DefaultHasher::new();
        keyed.write(&key);
        KeyedHash { keyed }
    }
}

impl BuildHasher for KeyedHash {
    type Hasher = DefaultHasher;

    ghost build_hasher = { λ h. h.keyed };

    fn build_hasher(&self) -> DefaultHasher {
        self.keyed
    }
}

// The glyphs of a font in the order of their names in it, and where the charstring of each stands.
pub(crate) type Glyphs<'a> = IndexMap<Name<'a>, Span, KeyedHash>;

// What a text asks for of a font: which of its glyphs, in their order, and the names that no glyph has.
#[derive(Drop)]
pub(crate) struct Asked<'a> {
    pub glyphs: Vec<bool>,
    pub missing: Vec<Name<'a>>,
}

// The names that a text asks for, each once, in its order; every name where the text is empty.
#[derive(Drop)]
pub(crate) struct Names<'a> {
    listed: Option<IndexSet<Name<'a>, KeyedHash>>,
}

impl<'a> Names<'a> {
    // Every name.
    pub(crate) fn all() -> Names<'a> {
        Names { listed: None }
    }

    // Names with white space between them.
    pub(crate) fn of_text(
        alloc: Global,
        hash: KeyedHash,
        text: &'a [u8],
    ) -> Result<Names<'a>, AllocError> {
        if text.is_empty() {
            return Ok(Names::all());
        }
        let mut listed = IndexSet::with_hasher(alloc, hash);
        for bytes in text.split(|&b| is_space(b)) {
            if !bytes.is_empty() {
                listed.insert(Name { bytes })?;
            }
        }
        Ok(Names {
            listed: Some(listed),
        })
    }

    // The names, where not every name is asked for.
    pub(crate) fn listed(&self) -> &[Name<'a>] {
        match &self.listed {
            Some(listed) => listed.as_slice(),
            None => &[],
        }
    }

    // What is asked for of a font's glyphs: each name is looked up once.
    pub(crate) fn of_glyphs(
        &self,
        alloc: Global,
        glyphs: &Glyphs,
    ) -> Result<Asked<'a>, AllocError> {
        let mut asked = Asked {
            glyphs: vec![in alloc; self.listed.is_none(); glyphs.len()]?,
            missing: Vec::new(alloc),
        };
        for name in self.listed() {
            match glyphs.get_index_of(name) {
                Some(i) => {
                    if let Some(glyph) = asked.glyphs.get_mut(i) {
                        *glyph = true;
                    }
                }
                None => asked.missing.push(*name)?,
            }
        }
        Ok(asked)
    }
}
