use crate::DirDisk;
use plane_disk::Disk;
use plane_io::Text;
use std::alloc::Global;
use std::fs;
use std::process::Abort;

fn names_are(rt: &impl Abort, disk: &DirDisk, names: &[&str]) {
    assert_eq!(rt; disk.count() as usize, names.len());
    for file in 0..disk.count() {
        let name = names.get(file as usize).expect(rt, "a name");
        assert_eq!(rt; disk.name(file), name.as_bytes());
    }
}

fn reads(rt: &impl Abort, disk: &mut DirDisk, file: u32, at: u64, text: &[u8]) {
    assert!(rt; file < disk.count());
    let mut into = [7u8; 8];
    let count = disk.read(file, at, &mut into).ok().expect(rt, "a read");
    assert!(rt; count <= 8);
    assert_eq!(rt; &into[..count], text);
}

fn sizes_are(rt: &impl Abort, disk: &DirDisk, sizes: &[u64]) {
    assert_eq!(rt; disk.count() as usize, sizes.len());
    for file in 0..disk.count() {
        assert_eq!(rt; Some(&disk.size(file)), sizes.get(file as usize));
    }
}

fn texts(rt: &impl Abort, alloc: Global, names: &[&str]) -> Vec<Text> {
    let mut texts = Vec::new(alloc);
    for name in names {
        let text = Text::from_bytes(alloc, name.as_bytes()).ok();
        texts
            .push(text.expect(rt, "memory"))
            .ok()
            .expect(rt, "memory");
    }
    texts
}

const PACKAGES: [&str; 4] = ["config/network", "config/dhcp", "config/Z-9", "config/a.b"];

#[test]
fn a_folder_is_a_disk(rt: HostRuntime) {
    let _ = fs::remove_dir_all(&rt, "config");
    assert!(rt; fs::create_dir_all(&rt, "config").is_ok());
    for path in PACKAGES {
        assert!(rt; fs::write(&rt, path, b"abcdef").is_ok());
    }
    let opened = DirDisk::open(&rt, rt.alloc(), "config");
    let mut disk = opened.ok().expect(&rt, "a disk");
    names_are(
        &rt,
        &disk,
        &[".plane-gates", ".plane-snapshot", "Z-9", "dhcp", "network"],
    );
    sizes_are(&rt, &disk, &[2, 0, 6, 6, 6]);
    reads(&rt, &mut disk, 0, 0, &[0, 0]);
    reads(&rt, &mut disk, 3, 2, b"cdef");
    reads(&rt, &mut disk, 3, 6, b"");
    assert!(rt; 3 < disk.count());
    assert_eq!(rt; disk.write_at(3, 4, b"EFGH"), Ok(()));
    assert_eq!(rt; disk.cut(3, 5), Ok(()));
    assert_eq!(rt; disk.cut(3, 9), Ok(()));
    assert_eq!(rt; disk.write_at(0, 1, &[0x4f]), Ok(()));
    assert_eq!(rt; disk.sync(), Ok(()));
    reads(&rt, &mut disk, 3, 0, b"abcdE");
    drop(disk);
    let bytes = fs::read(&rt, "config/dhcp").ok().expect(&rt, "a file");
    assert_eq!(rt; bytes.as_slice(), b"abcdE".as_slice());
    let opened = DirDisk::open(&rt, rt.alloc(), "config");
    let mut again = opened.ok().expect(&rt, "a disk");
    sizes_are(&rt, &again, &[2, 0, 6, 5, 6]);
    reads(&rt, &mut again, 0, 0, &[0, 0x4f]);
    reads(&rt, &mut again, 3, 0, b"abcdE");
    let _ = fs::remove_dir_all(&rt, "config");
}

#[test]
fn a_folder_that_is_not_there_is_told(rt: HostRuntime) {
    assert!(rt; DirDisk::open(&rt, rt.alloc(), "nowhere").is_err());
}

#[test]
fn short_gates_stay_beside_a_snapshot(rt: HostRuntime) {
    let _ = fs::remove_dir_all(&rt, "gates");
    assert!(rt; fs::create_dir_all(&rt, "gates").is_ok());
    assert!(rt; fs::write(&rt, "gates/.plane-gates", b"O").is_ok());
    assert!(rt; fs::write(&rt, "gates/.plane-snapshot", b"body").is_ok());
    let opened = DirDisk::open(&rt, rt.alloc(), "gates");
    sizes_are(&rt, &opened.ok().expect(&rt, "a disk"), &[1, 4]);
    assert!(rt; fs::write(&rt, "gates/.plane-snapshot", b"").is_ok());
    let opened = DirDisk::open(&rt, rt.alloc(), "gates");
    sizes_are(&rt, &opened.ok().expect(&rt, "a disk"), &[2, 0]);
    let _ = fs::remove_dir_all(&rt, "gates");
}

#[test]
fn a_staged_folder_has_the_given_names(rt: HostRuntime) {
    let _ = fs::remove_dir_all(&rt, "tmp");
    let packages = texts(&rt, rt.alloc(), &["dhcp", "network"]);
    let opened = DirDisk::open_staged(&rt, rt.alloc(), "tmp/staged", &packages);
    let mut disk = opened.ok().expect(&rt, "a disk");
    names_are(
        &rt,
        &disk,
        &[".plane-gates", ".plane-snapshot", "dhcp", "network"],
    );
    assert!(rt; 3 < disk.count());
    assert_eq!(rt; disk.write_at(3, 0, b"abc"), Ok(()));
    drop(disk);
    let packages = texts(&rt, rt.alloc(), &["network"]);
    let opened = DirDisk::open_staged(&rt, rt.alloc(), "tmp/staged", &packages);
    let again = opened.ok().expect(&rt, "a disk");
    names_are(&rt, &again, &[".plane-gates", ".plane-snapshot", "network"]);
    sizes_are(&rt, &again, &[2, 0, 3]);
    let _ = fs::remove_dir_all(&rt, "tmp");
}

#[test]
fn names_that_do_not_rise_are_refused(rt: HostRuntime) {
    let packages = texts(&rt, rt.alloc(), &["network", "dhcp"]);
    assert!(rt; DirDisk::open_staged(&rt, rt.alloc(), "wrong/staged", &packages).is_err());
    let _ = fs::remove_dir_all(&rt, "wrong");
}
