use file_paths::NormPath;
use std::alloc::Global;
use std::test::Fail;
use stem_index::{StemIndex, candidates_fit};

// An index of texts with and without stems.
fn small_index(alloc: Global) -> Result<StemIndex, Fail> {
    let mut index = StemIndex::new(alloc);
    index.push(alloc, b"/usr/bin/")?;
    index.push(alloc, b"/us")?;
    index.push(alloc, b"/etc/")?;
    index.push(alloc, b"//usr/")?;
    index.push(alloc, b"/usr/")?;
    Ok(index)
}

// Whether these are the candidates for a path.
fn has_candidates(alloc: Global, index: &StemIndex, path: &[u8], wanted: &[u32]) -> bool {
    let Ok(path) = NormPath::read(alloc, path) else {
        return false;
    };
    let mut at = 0;
    for i in index.candidates(&path.path()) {
        match wanted.get(at) {
            Some(want) if *want == i => at += 1,
            _ => return false,
        }
    }
    at == wanted.len()
}

#[test]
fn tells_candidates(rt: HostRuntime) -> Result<(), Fail> {
    candidates_fit();
    let index = small_index(rt.alloc())?;
    assert!(rt; has_candidates(rt.alloc(), &index, b"/usr/lib", [4, 3, 1, 0].as_slice()));
    assert!(rt; has_candidates(rt.alloc(), &index, b"/etc", [3, 2, 1].as_slice()));
    assert!(rt; has_candidates(rt.alloc(), &index, b"/", [3, 1].as_slice()));
    Ok(())
}
