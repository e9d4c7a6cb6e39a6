//! The errors of Linux (errno(3)), negative as results are.

pub const ENOENT: i32 = -2;

pub const EINTR: i32 = -4;

pub const EBADF: i32 = -9;

pub const EAGAIN: i32 = -11;

pub const EFAULT: i32 = -14;

pub const EEXIST: i32 = -17;

pub const ENOTDIR: i32 = -20;

pub const EINVAL: i32 = -22;

pub const EMFILE: i32 = -24;

pub const ENOTTY: i32 = -25;

pub const EFBIG: i32 = -27;

pub const ENOSPC: i32 = -28;

pub const ESPIPE: i32 = -29;

pub const EPIPE: i32 = -32;

pub const ERANGE: i32 = -34;

pub const ENAMETOOLONG: i32 = -36;

pub const ENOSYS: i32 = -38;

pub const ENOTSOCK: i32 = -88;

pub const EADDRINUSE: i32 = -98;

pub const ENOTCONN: i32 = -107;
