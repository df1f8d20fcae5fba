use ddl_read::{Piece, PieceKind, Pieces, read, read_front};
use hs_texts::{Ast, Refusal};
use std::alloc::Global;
use std::test::Fail;

const CAMERA: &[u8] =
    b"hsts 1 var camera value idle [1,inf] then shoot value shoot [3,5] by device then idle answers 4 done begin idle var attitude value earth [1,inf] then turn value turn [10,12] by device then comet answers 11 done value comet [1,inf] begin earth need camera.shoot contained_by [0,inf] [0,inf] attitude.comet horizon 100 goal camera.shoot start [20,40] end";

/// Whether it is the camera mission.
fn is_camera(ast: &Ast) -> bool {
    match ast.vars.as_slice() {
        [camera, attitude] => {
            camera.name.as_bytes() == b"camera".as_slice()
                && camera.values.len() == 2
                && attitude.values.len() == 3
                && ast.needs.len() == 1
                && ast.horizons.len() == 1
        }
        _ => false,
    }
}

#[test]
fn a_mission_is_read(rt: HostRuntime) -> Result<(), Fail> {
    let ast = read(rt.alloc(), CAMERA)?;
    assert!(rt; is_camera(&ast) && ast.version == 1);
    Ok(())
}

#[test]
fn a_front_is_read(rt: HostRuntime) -> Result<(), Fail> {
    let text = b"hsts 2 var a value p [1,inf] begin p horizon 10 end more";
    let (ast, used) = read_front(rt.alloc(), text)?;
    assert!(rt; ast.version == 2 && used == 16);
    Ok(())
}

/// Whether the text of the number is cut out at its place, as the second of three pieces.
fn is_cut(pieces: &Pieces) -> bool {
    let number = Piece {
        place: 7,
        length: 3,
        kind: PieceKind::Number(7),
    };
    pieces.count() == 3
        && pieces.get(1) == Some(number)
        && pieces.get(3).is_none()
        && pieces.text().len() == 11
}

#[test]
fn pieces_are_cut(rt: HostRuntime) -> Result<(), Fail> {
    let pieces = Pieces::cut(rt.alloc(), "a # é\n007(".as_bytes())?;
    assert!(rt; is_cut(&pieces));
    Ok(())
}

/// Whether the text is refused so.
fn is_refused(alloc: Global, text: &[u8], refusal: Refusal) -> bool {
    match read(alloc, text) {
        Ok(_) => false,
        Err(given) => given == refusal,
    }
}

#[test]
fn texts_are_refused(rt: HostRuntime) -> Result<(), Fail> {
    let alloc = rt.alloc();
    assert!(rt; is_refused(alloc, b"", Refusal::Expected { at: 0 }));
    let broken_off = b"hsts 1 var a value p [1";
    assert!(rt; is_refused(alloc, broken_off, Refusal::Expected { at: 23 }));
    let great = b"hsts 10000000001";
    assert!(rt; is_refused(alloc, great, Refusal::Number { at: 5 }));
    assert!(rt; is_refused(alloc, b"\xFF", Refusal::NotUtf8 { at: 0 }));
    let accent = "hsts 1 é".as_bytes();
    assert!(rt; is_refused(alloc, accent, Refusal::Char { at: 7 }));
    assert!(rt; is_refused(alloc, b"hsts 1 (", Refusal::Expected { at: 7 }));
    Ok(())
}
