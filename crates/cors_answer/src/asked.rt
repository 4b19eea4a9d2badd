//! What a preflight asks for.

// What a preflight asks for (Fetch Standard, "CORS-preflight fetch"), each looked up once: by whom, and for which method and
// headers.
#[derive(Clone, Copy)]
pub(crate) struct Asked<'a> {
    pub(crate) origin: Option<&'a [u8]>,
    pub(crate) method: &'a [u8],
    pub(crate) headers: Option<&'a [u8]>,
}
