// The names of volumes.

/// The number of a volume by the name of its file, as 16 of `16.db`. `None` of other names, as `016.db`.
pub fn volume_number(name: &str) -> Option<u64> {
    let digits = name.strip_suffix(".db")?;
    let is_number = digits.bytes().all(|byte| byte.is_ascii_digit());
    if !is_number || (digits.len() > 1 && digits.starts_with('0')) {
        return None;
    }
    digits.parse().ok()
}
