//! Surfaces of the examples that no other test needs.

/// Two regular octagons, each side glued to the parallel side of the other.
pub(super) const DOUBLE_OCTAGON: &[u8] =
    b"flat 1\nfield 2\npolygon 2,0 0+1r,0+1r 0,2 0-1r,0+1r -2,0 0-1r,0-1r 0,-2 0+1r,0-1r\npolygon 2,0 0+1r,0+1r 0,2 0-1r,0+1r -2,0 0-1r,0-1r 0,-2 0+1r,0-1r\nglue 0.0 1.4\nglue 0.1 1.5\nglue 0.2 1.6\nglue 0.3 1.7\nglue 0.4 1.0\nglue 0.5 1.1\nglue 0.6 1.2\nglue 0.7 1.3\nend\n";

/// Eight squares, one for each of the quaternions of unit length among ±1, ±i, ±j, ±k.
pub(super) const EIERLEGENDE_WOLLMILCHSAU: &[u8] =
    b"flat 1\nfield 2\npolygon 1,0 0,1 -1,0 0,-1\npolygon 1,0 0,1 -1,0 0,-1\npolygon 1,0 0,1 -1,0 0,-1\npolygon 1,0 0,1 -1,0 0,-1\npolygon 1,0 0,1 -1,0 0,-1\npolygon 1,0 0,1 -1,0 0,-1\npolygon 1,0 0,1 -1,0 0,-1\npolygon 1,0 0,1 -1,0 0,-1\nglue 0.1 1.3\nglue 1.1 4.3\nglue 2.1 7.3\nglue 3.1 2.3\nglue 4.1 5.3\nglue 5.1 0.3\nglue 6.1 3.3\nglue 7.1 6.3\nglue 0.2 2.0\nglue 1.2 3.0\nglue 2.2 4.0\nglue 3.2 5.0\nglue 4.2 6.0\nglue 5.2 7.0\nglue 6.2 0.0\nglue 7.2 1.0\nend\n";

/// The L-shaped table of discriminant 8.
pub(super) const L_8: &[u8] =
    b"flat 1\nfield 2\npolygon 0+1r,0 0,1 0-1r,0 0,-1\npolygon 2-1r,0 0,1 -2+1r,0 0,-1\npolygon 0+1r,0 0,0+1r 0-1r,0 0,0-1r\nglue 0.1 1.3\nglue 1.1 0.3\nglue 0.2 2.0\nglue 2.2 0.0\nglue 1.2 1.0\nglue 2.1 2.3\nend\n";

/// That of discriminant 12.
pub(super) const L_12: &[u8] =
    b"flat 1\nfield 3\npolygon 0+1r,0 0,1 0-1r,0 0,-1\npolygon 3-1r,0 0,1 -3+1r,0 0,-1\npolygon 0+1r,0 0,0+1r 0-1r,0 0,0-1r\nglue 0.1 1.3\nglue 1.1 0.3\nglue 0.2 2.0\nglue 2.2 0.0\nglue 1.2 1.0\nglue 2.1 2.3\nend\n";

/// That of discriminant 13.
pub(super) const L_13: &[u8] =
    b"flat 1\nfield 13\npolygon -1+1r,0 0,2 1-1r,0 0,-2\npolygon 7-1r,0 0,2 -7+1r,0 0,-2\npolygon -1+1r,0 0,-1+1r 1-1r,0 0,1-1r\nglue 0.1 1.3\nglue 1.1 0.3\nglue 0.2 2.0\nglue 2.2 0.0\nglue 1.2 1.0\nglue 2.1 2.3\nend\n";

/// That of discriminant 17 with the shorter square.
pub(super) const L_17_MINUS: &[u8] =
    b"flat 1\nfield 17\npolygon -1+1r,0 0,2 1-1r,0 0,-2\npolygon 9-1r,0 0,2 -9+1r,0 0,-2\npolygon -1+1r,0 0,-1+1r 1-1r,0 0,1-1r\nglue 0.1 1.3\nglue 1.1 0.3\nglue 0.2 2.0\nglue 2.2 0.0\nglue 1.2 1.0\nglue 2.1 2.3\nend\n";

/// That with the longer one.
pub(super) const L_17_PLUS: &[u8] =
    b"flat 1\nfield 17\npolygon 1+1r,0 0,2 -1-1r,0 0,-2\npolygon 7-1r,0 0,2 -7+1r,0 0,-2\npolygon 1+1r,0 0,1+1r -1-1r,0 0,-1-1r\nglue 0.1 1.3\nglue 1.1 0.3\nglue 0.2 2.0\nglue 2.2 0.0\nglue 1.2 1.0\nglue 2.1 2.3\nend\n";
